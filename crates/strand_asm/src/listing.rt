ghost use Rattle.std.specs.Prelude.{◌≡◌, ◌++◌, ◌<◌, ◌^◌, ◌∷◌, [], codes, length, Ok, OnOk};
ghost use Rattle.strand_base.specs.Puts.{Puts};
ghost use Rattle.strand_isa.specs.Print.{instr_text};
ghost use Rattle.strand_isa.specs.Word.{IsValid};
ghost use Rattle.strand_image.specs.Limits.{IsImage};
ghost use Rattle.strand_asm.specs.Assemble.{assembled};
ghost use Rattle.strand_asm.specs.Listing.{AreDecoded, Ascend, IsDecoded, PutsLines, code_lines, code_section, code_text, data_section, entry_lines, entry_text, front_text, listing, named_word_lines, names_at, sections_text, text_or, word_text};

use crate::data_lines::put_data;
use crate::names::{put_names, standing_at};
use crate::number_lines::{put_number_line, put_word_line};
use strand_base::{OutOfMemory, put};
use strand_image::{Image, Region, Symbol};
use strand_isa::{Instr, decode, print_instr};

fn put_entry(into: &mut Vec<u8>, entry: u32) -> Result<(), OutOfMemory>
    ensures { Puts result (entry_text entry ++ 10 ∷ []) into.old.items into.new.items }
{
    put_number_line(into, b".entry ", u64::from(entry))
}

fn put_entries(into: &mut Vec<u8>, entries: &[u32]) -> Result<(), OutOfMemory>
    ensures { PutsLines result (entry_lines entries.now) into.old.items into.new.items }
{
    for entry in entries {
        put_entry(into, *entry)?;
    }
    Ok(())
}

fn put_code_number(into: &mut Vec<u8>, word: u32) -> Result<(), OutOfMemory>
    ensures { Puts result (word_text 8 word ++ 10 ∷ []) into.old.items into.new.items }
{
    put_word_line(into, u64::from(word), 8)
}

fn put_instr(into: &mut Vec<u8>, i: &Instr, word: u32) -> Result<(), OutOfMemory>
    requires { IsValid i.now }
    ensures { Puts result (text_or word (instr_text i.now) ++ 10 ∷ []) into.old.items into.new.items }
{
    if print_instr(i, into)? {
        put(into, b"\n")
    } else {
        put_code_number(into, word)
    }
}

fn put_code_word(into: &mut Vec<u8>, word: u32) -> Result<(), OutOfMemory>
    ensures text { Puts result (code_text word ++ 10 ∷ []) into.old.items into.new.items }
    ensures decoded { IsDecoded word }
{
    match decode(word) {
        Some(i) => put_instr(into, &i, word),
        None => put_code_number(into, word),
    }
}

/// The names of a place of the code.
fn put_code_names(into: &mut Vec<u8>, symbols: &[Symbol], place: u32) -> Result<(), OutOfMemory>
    requires { Ascend symbols.now }
    ensures { PutsLines result (names_at symbols.now Region.Code place) into.old.items into.new.items }
{
    put_names(into, standing_at(symbols, Region::Code, place))
}

/// A code word behind the names of its place.
fn put_named_word(
    into: &mut Vec<u8>,
    symbols: &[Symbol],
    place: u32,
    word: u32,
) -> Result<(), OutOfMemory>
    requires { Ascend symbols.now }
    ensures text { PutsLines result (named_word_lines (names_at symbols.now Region.Code place) word) into.old.items into.new.items }
    ensures decoded { OnOk result (IsDecoded word) }
{
    put_code_names(into, symbols, place)?;
    put_code_word(into, word)
}

fn put_code(into: &mut Vec<u8>, symbols: &[Symbol], code: &[u32]) -> Result<(), OutOfMemory>
    requires ascend { Ascend symbols.now }
    requires few { length code.now < 2 ^ 32 }
    ensures text { PutsLines result (code_lines (names_at symbols.now Region.Code) code.now) into.old.items into.new.items }
    ensures decoded { OnOk result (AreDecoded code.now) }
{
    for (place, word) in code.iter().enumerate() {
        put_named_word(into, symbols, place as u32, *word)?;
    }
    put_code_names(into, symbols, code.len() as u32)
}

/// A section's directive and its words.
fn put_section(
    into: &mut Vec<u8>,
    front: &[u8],
    symbols: &[Symbol],
    region: Region,
    words: &[u64],
) -> Result<(), OutOfMemory>
    requires ascend { Ascend symbols.now }
    requires few { length words.now < 2 ^ 32 }
    ensures { Puts result (data_section front.now symbols.now region words.now) into.old.items into.new.items }
{
    put(into, front)?;
    put_data(into, symbols, region, words)
}

fn put_code_section(into: &mut Vec<u8>, symbols: &[Symbol], code: &[u32]) -> Result<(), OutOfMemory>
    requires ascend { Ascend symbols.now }
    requires few { length code.now < 2 ^ 32 }
    ensures text { Puts result (code_section symbols.now code.now) into.old.items into.new.items }
    ensures decoded { OnOk result (AreDecoded code.now) }
{
    put(into, b".code\n")?;
    put_code(into, symbols, code)
}

fn put_front(into: &mut Vec<u8>, image: &Image) -> Result<(), OutOfMemory>
    ensures text { Puts result (front_text image.now) into.old.items into.new.items }
    ensures decoded { OnOk result (AreDecoded image.now.code) }
    ensures keeps { IsImage image.now }
{
    put_entries(into, image.entries())?;
    put_code_section(into, image.symbols(), image.code())
}

fn put_sections(into: &mut Vec<u8>, image: &Image) -> Result<(), OutOfMemory>
    ensures { Puts result (sections_text image.now) into.old.items into.new.items }
{
    let symbols = image.symbols();
    put_section(
        into,
        b".volatile\n",
        symbols,
        Region::Volatile,
        image.volatile(),
    )?;
    put_section(
        into,
        b".persist\n",
        symbols,
        Region::Persistent,
        image.persistent(),
    )
}

/// Appends the listing of an image: an assembler text with `.entry` for each core, and then the sections
/// with a line for each symbol before the word at its place or at the end of its section, for each code word,
/// for each longest run of data words of 0 in which no symbol stands but at the first, and for each other data
/// word. Where memory ran out, a front of it is appended. The assembly of the listing is the image again.
pub fn list(image: &Image, into: &mut Vec<u8>) -> Result<(), OutOfMemory>
    ensures text { Puts result (listing image.now) into.old.items into.new.items }
    ensures again { OnOk result (assembled (listing image.now) ≡ Ok image.now) }
{
    put_front(into, image)?;
    put_sections(into, image)
}
