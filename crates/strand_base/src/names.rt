ghost use Rattle.std.specs.Prelude.{◌≡◌};
ghost use Rattle.std.specs.List.{list_all};
ghost use Rattle.strand_base.specs.Name.{is_label, is_name, is_name_byte, is_name_start};

use crate::limits::MOST_LABEL;

fn is_name_start(b: u8) -> bool
    ensures { result ≡ is_name_start b }
{
    b.is_ascii_alphabetic() || b == b'_'
}

fn is_name_byte(b: u8) -> bool
    ensures { result ≡ is_name_byte b }
{
    b.is_ascii_alphanumeric() || b == b'_'
}

fn are_name_bytes(text: &[u8]) -> bool
    ensures { result ≡ list_all is_name_byte text.now }
{
    text.iter().all(|b| is_name_byte(*b))
}

/// Whether a text is a name: letters, digits and `_`, not beginning with a digit.
pub fn is_name(text: &[u8]) -> bool
    ensures { result ≡ is_name text.now }
{
    if text.is_empty() {
        return false;
    }
    is_name_start(text[0]) && are_name_bytes(text)
}

/// Whether a text is a name of at most 64 characters.
pub fn is_label(text: &[u8]) -> bool
    ensures { result ≡ is_label text.now }
{
    is_name(text) && text.len() <= MOST_LABEL
}
