ghost use Rattle.std.specs.Prelude.{◌≡◌, ◌<◌, length, IfSome};
ghost use Rattle.strand_base.specs.ModuleSeen.{ModuleSeen, LoadsWord, StoresWord};

/// The module did not load or store: its count of faults has risen, and no word has changed.
#[derive(Clone, Copy, Debug, PartialEq, Eq)]
pub struct ModuleFailed;

/// A memory module: words of 64 bits, numbered from 0 (docs/outside.md).
///
/// `holds` is what contracts know of it: its size, which never changes, its words, where the object tells
/// them, the count of faults, which rises at failures alone, and the number of loads and stores, each of
/// which raises it by one or leaves it at 2^64 - 1.
pub trait PmModule: Drop {
    ghost holds: { Self → ModuleSeen };

    /// How many words it has.
    fn words(&self) -> u64
        ensures size { result ≡ (holds self.now).size }
        ensures told { IfSome (holds self.now).told (λ words. length words ≡ result) };

    /// The word at `at`, which is below `words()`. No word changes.
    ///
    /// `ModuleFailed`, only where the count of faults has risen.
    fn load(&mut self, at: u64) -> Result<u64, ModuleFailed>
        requires { at < (holds self.old).size }
        ensures { LoadsWord (holds self.old) (holds self.new) at result };

    /// Writes the word at `at`, which is below `words()`, and no other.
    ///
    /// `ModuleFailed`, only where the count of faults has risen: no word has changed.
    fn store(&mut self, at: u64, value: u64) -> Result<(), ModuleFailed>
        requires { at < (holds self.old).size }
        ensures { StoresWord (holds self.old) (holds self.new) at value result };
}
