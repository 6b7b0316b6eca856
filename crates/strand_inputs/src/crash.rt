ghost use Rattle.std.specs.Prelude.{◌≡◌, ◌*◌, ◌++◌, ◌≤◌, [], ◌∷◌, length, IfOk, OnOk, OnErr, Ok};
ghost use Rattle.strand_base.specs.LittleEndian.{u64s};
ghost use Rattle.strand_base.specs.Puts.{Puts};
ghost use Rattle.strand_inputs.specs.Reading.{GivesInput};
ghost use Rattle.strand_inputs.specs.Crash.{crash_words_of, crash_bytes};

use crate::fault::InputFault;
use std::alloc::Global;
use std::marker::Model;
use strand_base::{OutOfMemory, put_u64s, read_u64s};

/// A list of words of 64 bits, which contracts see as a list.
#[derive(Debug, Drop)]
pub struct Words {
    items: Vec<u64>,
}

impl Model for Words {
    ghost use Rattle.std.specs.Prelude.{List, ℕ};

    ghost Value = { List ℕ };

    ghost view = { λ s. s.items.items };
}

impl Words {
    /// The empty list. It takes no memory.
    pub fn new(alloc: Global) -> Words
        ensures { result ≡ [] }
    {
        Words {
            items: Vec::new(alloc),
        }
    }

    /// Puts a word at the end. A refusal leaves the list as it was.
    pub fn push(&mut self, word: u64) -> Result<(), OutOfMemory>
        ensures ok { OnOk result (self.new ≡ self.old ++ word ∷ []) }
        ensures err { OnErr result (self.new ≡ self.old) }
    {
        self.items.push(word)?;
        Ok(())
    }

    /// The words, in order.
    pub fn as_slice(&self) -> &[u64]
        ensures { result.now ≡ self.now }
    {
        self.items.as_slice()
    }
}

// So many words, one after the other.
fn read_words(alloc: Global, bytes: &[u8], count: u32) -> Result<Words, OutOfMemory>
    requires { 8 * count ≤ length bytes.now }
    ensures { IfOk result (λ words. words ≡ u64s count bytes.now) }
{
    Ok(Words {
        items: read_u64s(alloc, bytes, count)?,
    })
}

/// The crash image of so many words that the bytes are, eight bytes a word and the low byte first.
///
/// `CrashLength` comes exactly where the number of bytes isn't eight times the words. Bytes that are
/// accepted are those that `print_crash` appends.
#[tactic(auto, unfolding(crate::specs::Crash::crash_words_of))]
pub fn read_crash(alloc: Global, bytes: &[u8], words: u32) -> Result<Words, InputFault>
    ensures gives { GivesInput (λ words. words) result (crash_words_of words bytes.now) }
    ensures spelling { IfOk result (λ words. bytes.now ≡ crash_bytes words) }
{
    let need = 8 * u64::from(words);
    let have = bytes.len() as u64;
    if have != need {
        return Err(InputFault::CrashLength { need, have });
    }
    match read_words(alloc, bytes, words) {
        Ok(words) => Ok(words),
        Err(_) => Err(InputFault::OutOfMemory),
    }
}

/// Appends the words of a crash image, which are read back. Where memory ran out, a front of them is
/// appended.
pub fn print_crash(words: &[u64], into: &mut Vec<u8>) -> Result<(), OutOfMemory>
    ensures text { Puts result (crash_bytes words.now) into.old.items into.new.items }
    ensures again { crash_words_of (length words.now) (crash_bytes words.now) ≡ Ok words.now }
{
    put_u64s(into, words)
}
