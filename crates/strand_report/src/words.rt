ghost use Rattle.std.specs.Prelude.{◌+◌, ◌*◌, ◌^◌, ◌<◌, ◌≤◌};
ghost use Rattle.strand_base.specs.Puts.{Puts};
ghost use Rattle.strand_report.specs.Numbered.{numbered_texts};
ghost use Rattle.strand_report.specs.Words.{visible_lines, word_line};

use crate::fields::Field::{Hex, Word};
use crate::fields::put_fields;
use strand_base::{OutOfMemory, PERSISTENT_BASE, VOLATILE_BASE};
use strand_exec::FlatMemory;

/// The line of a word, where it is not 0.
fn put_word(
    into: &mut Vec<u8>,
    name: &str,
    base: u64,
    place: usize,
    word: u64,
) -> Result<(), OutOfMemory>
    requires { base + 8 * place < 2 ^ 64 }
    ensures { Puts result (word_line name.now base place word) into.old.items into.new.items }
{
    if word == 0 {
        return Ok(());
    }
    let address = base + 8 * place as u64;
    put_fields(into, &[Word(name)], &[Hex(address), Hex(word)])
}

/// Appends the lines of the words that are not 0. The first word has the address `base`, and each
/// further one an address higher by 8.
pub(crate) fn put_words(
    into: &mut Vec<u8>,
    name: &str,
    base: u64,
    words: &[u64],
) -> Result<(), OutOfMemory>
    requires { base ≤ 2 ^ 32 }
    ensures { Puts result (numbered_texts (word_line name.now base) words.now)
        into.old.items into.new.items }
{
    for (place, word) in words.iter().enumerate() {
        put_word(into, name, base, place, *word)?;
    }
    Ok(())
}

/// Appends `vis H H`, address and value, for each word of the memory that is not 0, by rising address.
pub(crate) fn put_visible(into: &mut Vec<u8>, memory: &FlatMemory) -> Result<(), OutOfMemory>
    ensures { Puts result (visible_lines memory.now) into.old.items into.new.items }
{
    put_words(into, "vis", VOLATILE_BASE, &memory.volatile)?;
    put_words(into, "vis", PERSISTENT_BASE, &memory.persistent)
}
