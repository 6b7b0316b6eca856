ghost use Rattle.std.specs.Prelude.{◌≡◌, ◌++◌, ◌<◌, ◌^◌, ◌∷◌, [], length, IfOk};
ghost use Rattle.strand_asm.specs.Listing.{Ascend, PutsLines, data_lines, name_texts, named_data_lines, names_at, names_lines, past_named_data, past_names, past_word, space_text, word_lines, word_text};

use crate::names::{put_names, standing_at};
use crate::number_lines::{put_number_line, put_word_line};
use strand_base::OutOfMemory;
use strand_image::{Region, Symbol};

/// The line of so many words of 0, where there are any.
fn put_space(into: &mut Vec<u8>, zeros: u64) -> Result<(), OutOfMemory>
    ensures { PutsLines result (space_text zeros) into.old.items into.new.items }
{
    if zeros == 0 {
        Ok(())
    } else {
        put_number_line(into, b".space ", zeros)
    }
}

/// The line of the words of 0 so far, and names.
fn put_space_and_names(into: &mut Vec<u8>, zeros: u64, names: &[Symbol]) -> Result<(), OutOfMemory>
    ensures { PutsLines result (space_text zeros ++ name_texts names.now) into.old.items into.new.items }
{
    put_space(into, zeros)?;
    put_names(into, names)
}

/// The names before a data word. They end a run of words of 0. It tells how many words of 0 are left to tell.
fn put_data_names(into: &mut Vec<u8>, zeros: u64, names: &[Symbol]) -> Result<u64, OutOfMemory>
    ensures text { PutsLines result (names_lines zeros (name_texts names.now)) into.old.items into.new.items }
    ensures left { IfOk result (λ left. left ≡ past_names zeros (name_texts names.now)) }
{
    if names.is_empty() {
        return Ok(zeros);
    }
    put_space_and_names(into, zeros, names)?;
    Ok(0)
}

fn put_space_and_word(into: &mut Vec<u8>, zeros: u64, word: u64) -> Result<(), OutOfMemory>
    ensures { PutsLines result (space_text zeros ++ word_text 0 word ∷ []) into.old.items into.new.items }
{
    put_space(into, zeros)?;
    put_word_line(into, word, 0)
}

/// A data word behind so many words of 0. It tells how many words of 0 are then left to tell.
fn put_data_word(into: &mut Vec<u8>, zeros: u64, word: u64) -> Result<u64, OutOfMemory>
    requires { zeros < 2 ^ 32 }
    ensures text { PutsLines result (word_lines zeros word) into.old.items into.new.items }
    ensures left { IfOk result (λ left. left ≡ past_word zeros word) }
{
    if word == 0 {
        return Ok(zeros + 1);
    }
    put_space_and_word(into, zeros, word)?;
    Ok(0)
}

/// A data word behind so many words of 0, with the names before it. It tells how many words of 0 are then left to tell.
fn put_named_data(
    into: &mut Vec<u8>,
    zeros: u64,
    names: &[Symbol],
    word: u64,
) -> Result<u64, OutOfMemory>
    requires { zeros < 2 ^ 32 }
    ensures text { PutsLines result (named_data_lines zeros (name_texts names.now) word) into.old.items into.new.items }
    ensures left { IfOk result (λ left. left ≡ past_named_data zeros (name_texts names.now) word) }
{
    let left = put_data_names(into, zeros, names)?;
    put_data_word(into, left, word)
}

pub(crate) fn put_data(
    into: &mut Vec<u8>,
    symbols: &[Symbol],
    region: Region,
    words: &[u64],
) -> Result<(), OutOfMemory>
    requires ascend { Ascend symbols.now }
    requires few { length words.now < 2 ^ 32 }
    ensures { PutsLines result (data_lines (names_at symbols.now region) words.now) into.old.items into.new.items }
{
    let mut zeros = 0;
    for (place, word) in words.iter().enumerate() {
        let names = standing_at(symbols, region, place as u32);
        zeros = put_named_data(into, zeros, names, *word)?;
    }
    let names = standing_at(symbols, region, words.len() as u32);
    put_space_and_names(into, zeros, names)
}
