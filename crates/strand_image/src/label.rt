ghost use Rattle.std.specs.Prelude.{◌≡◌, IsTrue, IfOk};
ghost use Rattle.strand_base.specs.Name.{is_label};

use std::alloc::Global;
use std::fmt;
use std::marker::Model;
use strand_base::OutOfMemory;

/// The name of a symbol: letters, digits and `_`, not beginning with a digit, and at most 64 of them, which
/// the type keeps.
#[derive(Drop)]
pub struct Label {
    bytes: Vec<u8>,
}

impl Model for Label {
    ghost use Rattle.std.specs.Prelude.{List, ℕ, IsTrue};

    ghost Value = { List ℕ };

    ghost use Rattle.strand_base.specs.Name.{is_label};

    ghost view = { λ s. s.bytes.items };

    ghost invariant = { λ s. IsTrue (is_label s.bytes.items) };
}

impl Label {
    /// The label that bytes are.
    pub(crate) fn of_bytes(alloc: Global, bytes: &[u8]) -> Result<Label, OutOfMemory>
        requires { IsTrue (is_label bytes.now) }
        ensures { IfOk result (λ label. label ≡ bytes.now) }
    {
        match Vec::from_slice(alloc, bytes) {
            Ok(bytes) => Ok(Label { bytes }),
            Err(_) => Err(OutOfMemory),
        }
    }

    /// The label that a text is, which is a name of at most 64 characters.
    pub fn copy(alloc: Global, text: &str) -> Result<Label, OutOfMemory>
        requires { IsTrue (is_label text.now) }
        ensures { IfOk result (λ label. label ≡ text.now) }
    {
        Label::of_bytes(alloc, text.as_bytes())
    }

    /// The label as bytes.
    pub(crate) fn as_bytes(&self) -> &[u8]
        ensures bytes { result.now ≡ self.now }
        ensures keeps { IsTrue (is_label self.now) }
    {
        &self.bytes
    }

    /// The label as text.
    pub fn as_str(&self) -> &str
        ensures text { result.now ≡ self.now }
        ensures keeps { IsTrue (is_label self.now) }
    {
        match str::from_utf8(&self.bytes) {
            Ok(text) => text,
            Err(_) => "",
        }
    }
}

impl fmt::Debug for Label {
    fn fmt<W: fmt::Write>(&self, f: &mut fmt::Formatter<W>) -> fmt::Result {
        fmt::Debug::fmt(self.as_str(), f)
    }
}
