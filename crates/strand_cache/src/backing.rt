ghost use Rattle.std.specs.Prelude.{◌≡◌, ◌<◌, ◌^◌, ◌%◌, length, slice_index, ℕ};
ghost use Rattle.strand_cache.specs.declared.lines.TheConstants.{LINE_WORDS};
ghost use Rattle.strand_exec.specs.Memory.{extents_of};
ghost use Rattle.strand_exec.specs.Plan.{is_data};
ghost use Rattle.strand_cache.specs.Backing.{with_line, line_word, word_or_zero, IsApart};

use crate::lines::{LINE_BYTES, LINE_WORDS};
use strand_base::{PERSISTENT_BASE, VOLATILE_BASE};
use strand_exec::FlatMemory;

/// Whether an address lies in the regions of a memory.
pub(crate) fn has_word(memory: &FlatMemory, word: u64) -> bool
    ensures { result ≡ is_data (extents_of memory.now) word }
{
    let volatile = VOLATILE_BASE + 8 * memory.volatile.len() as u64;
    let persistent = PERSISTENT_BASE + 8 * memory.persistent.len() as u64;
    (VOLATILE_BASE <= word && word < volatile) || (PERSISTENT_BASE <= word && word < persistent)
}

/// A word of a memory, 0 outside its regions.
#[tactic(auto, unfolding(crate::specs::Backing::word_or_zero))]
fn word_or_zero(memory: &FlatMemory, word: u64) -> u64
    requires { word % 8 ≡ 0 }
    ensures { result ≡ word_or_zero memory.now word }
{
    if has_word(memory, word) {
        memory.read(word)
    } else {
        0
    }
}

/// The words of a line. Those outside the regions are 0.
pub(crate) fn line_words(memory: &FlatMemory, line: u64) -> [u64; LINE_WORDS]
    requires { line < 2 ^ 32 }
    ensures { (k : ℕ) → k < LINE_WORDS
        → slice_index result k ≡ word_or_zero memory.now (line_word line k) }
{
    let mut words = [0; LINE_WORDS];
    for k in 0..LINE_WORDS {
        words[k] = word_or_zero(memory, LINE_BYTES * line + 8 * k as u64);
    }
    words
}

/// Shows that the volatile words lie below the persistent ones.
pub(crate) fn apart(memory: &FlatMemory)
    ensures { IsApart memory.now }
{
    let _ = &memory.volatile;
}

/// How many words the volatile region has.
pub(crate) fn volatile_words(memory: &FlatMemory) -> usize
    ensures { result ≡ length memory.now.volatile }
{
    memory.volatile.len()
}

/// How many words the persistent region has.
pub(crate) fn persistent_words(memory: &FlatMemory) -> usize
    ensures { result ≡ length memory.now.persistent }
{
    memory.persistent.len()
}

/// Puts the words of a line back.
#[tactic(auto, unfolding(crate::specs::Backing::with_line))]
pub(crate) fn put_line(memory: &mut FlatMemory, line: u64, words: &[u64; LINE_WORDS])
    requires { line < 2 ^ 32 }
    ensures memory { memory.new ≡ with_line memory.old line words.now }
    ensures extents { extents_of memory.new ≡ extents_of memory.old }
{
    for k in 0..LINE_WORDS {
        let word = LINE_BYTES * line + 8 * k as u64;
        if has_word(memory, word) {
            memory.write(word, words[k]);
        }
    }
}
