ghost use Rattle.std.specs.Prelude.{◌≡◌, ◌<◌};
ghost use Rattle.strand_cache.specs.declared.lines.TheConstants.{LINE_WORDS};
ghost use Rattle.strand_cache.specs.Copies.{cleaned};
ghost use Rattle.strand_cache.specs.Coherence.{CopyAfter};

use crate::change::Change;
use crate::lines::LINE_WORDS;
use strand_exec::merged;

/// A core's copy of a line.
#[derive(Clone, Copy, Debug, Default)]
pub(crate) struct HeldLine {
    /// The line, by the address of its first byte divided by 64.
    pub line: u64,
    /// Whether the core has changed it since it was last written back. Then no other core holds it.
    pub changed: bool,
    /// Its eight words.
    pub words: [u64; LINE_WORDS],
}

impl HeldLine {
    /// The copy, unchanged where it is of the line.
    pub(crate) fn cleaned(self, line: u64) -> HeldLine
        ensures { result ≡ cleaned line self }
    {
        HeldLine {
            line: self.line,
            changed: self.changed && self.line != line,
            words: self.words,
        }
    }

    /// The copy after an access to the word at a place.
    pub(crate) fn after(self, place: usize, change: Change) -> HeldLine
        requires { place < LINE_WORDS }
        ensures { CopyAfter change place self result }
    {
        match change {
            Change::Read => self,
            Change::Merge { mask, bits } => {
                let mut words = self.words;
                words[place] = merged(words[place], mask, bits);
                HeldLine {
                    line: self.line,
                    changed: true,
                    words,
                }
            }
        }
    }
}
