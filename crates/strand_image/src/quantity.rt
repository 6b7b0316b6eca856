ghost use Rattle.std.specs.Prelude.{◌≡◌};
ghost use Rattle.strand_image.specs.Limits.{is_within, is_within_by, least, most};

use crate::version::Version;
use strand_base::{
    FIRST_MOST_CODE, FIRST_MOST_CORES, FIRST_MOST_DATA, MOST_CODE, MOST_CORES, MOST_DATA,
    MOST_NAMES, MOST_SYMBOLS,
};

/// What an image has a limited number of: cores, 32-bit code words, 64-bit volatile words, 64-bit
/// persistent words, symbols, and bytes of its symbols as a file spells them.
#[derive(Clone, Copy, Debug, PartialEq, Eq)]
pub enum Quantity {
    Cores,
    Code,
    Volatile,
    Persistent,
    Symbols,
    Names,
}

impl Quantity {
    fn least(self) -> u64
        ensures { result ≡ least self }
    {
        match self {
            Quantity::Cores | Quantity::Code | Quantity::Persistent => 1,
            Quantity::Volatile | Quantity::Symbols | Quantity::Names => 0,
        }
    }

    fn most(self, version: Version) -> u32
        ensures { result ≡ most version self }
    {
        match (version, self) {
            (Version::First, Quantity::Cores) => FIRST_MOST_CORES,
            (Version::First, Quantity::Code) => FIRST_MOST_CODE,
            (Version::First, Quantity::Volatile | Quantity::Persistent) => FIRST_MOST_DATA,
            (Version::First, Quantity::Symbols | Quantity::Names) => 0,
            (Version::Second, Quantity::Cores) => MOST_CORES,
            (Version::Second, Quantity::Code) => MOST_CODE,
            (Version::Second, Quantity::Volatile | Quantity::Persistent) => MOST_DATA,
            (Version::Second, Quantity::Symbols) => MOST_SYMBOLS,
            (Version::Second, Quantity::Names) => MOST_NAMES,
        }
    }

    /// Whether an image may have so many. It has a core, a code word and a persistent word at least.
    pub fn allows(self, number: u64) -> bool
        ensures { result ≡ is_within self number }
    {
        self.allows_in(Version::Second, number)
    }

    /// Whether a file of a version may say so many.
    pub(crate) fn allows_in(self, version: Version, number: u64) -> bool
        ensures { result ≡ is_within_by version self number }
    {
        self.least() <= number && number <= u64::from(self.most(version))
    }
}
