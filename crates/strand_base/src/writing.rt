ghost use Rattle.std.specs.Prelude.{◌≡◌, ◌∷◌, ◌++◌, map};
ghost use Rattle.std.specs.List.{flat_map};
ghost use Rattle.strand_base.specs.Puts.{Puts};
ghost use Rattle.strand_base.specs.Text.{line_text};

use crate::OutOfMemory;

/// Appends bytes. Where memory ran out, a front of them is appended.
pub fn put(into: &mut Vec<u8>, bytes: &[u8]) -> Result<(), OutOfMemory>
    ensures { Puts result bytes.now into.old.items into.new.items }
{
    match into.extend_from_slice(bytes) {
        Ok(()) => Ok(()),
        Err(_) => Err(OutOfMemory),
    }
}

fn put_spaced(into: &mut Vec<u8>, word: &[u8]) -> Result<(), OutOfMemory>
    ensures { Puts result (32 ∷ word.now) into.old.items into.new.items }
{
    put(into, b" ")?;
    put(into, word)
}

fn put_all_spaced(into: &mut Vec<u8>, words: &[&[u8]]) -> Result<(), OutOfMemory>
    ensures { Puts result (flat_map (λ w. 32 ∷ w.now) words.now) into.old.items into.new.items }
{
    for word in words {
        put_spaced(into, word)?;
    }
    Ok(())
}

/// Appends a line of words, with one space between and a line end. Where memory ran out, a front of
/// it is appended.
pub fn put_line(into: &mut Vec<u8>, first: &[u8], others: &[&[u8]]) -> Result<(), OutOfMemory>
    ensures { Puts result (line_text (first.now ∷ map (λ w. w.now) others.now))
        into.old.items into.new.items }
{
    put(into, first)?;
    put_all_spaced(into, others)?;
    put(into, b"\n")
}
