ghost use Rattle.std.specs.Prelude.{◌≡◌, length, position, nat_le, OnOk};
ghost use Rattle.strand_base.specs.declared.limits.TheConstants.{MOST_SYMBOLS};
ghost use Rattle.strand_image.specs.ImageSeen.{image_seen};
ghost use Rattle.strand_image.specs.Limits.{IsWithinLimits, IsImage};
ghost use Rattle.strand_image.specs.Image.{limit_check, within_limits, entries_exist, symbols_stand, kept_image, checked_image};
ghost use Rattle.strand_image.specs.Symbols.{sizes_of};
ghost use Rattle.strand_image.specs.declared.version.Version.TheVariants.{Second};

use crate::checking::{SectionSizes, count_before_fault};
use crate::fault::ImageFault;
use crate::quantity::Quantity;
use crate::symbol::Symbol;
use crate::version::Version;
use std::marker::Model;

/// A program: the entry of each core, the code words, the words of volatile and persistent memory, and names
/// for places of these sections. It has 1 to 8 cores, 1 to 131,072 code words, 0 to 262,144 volatile and 1 to
/// 262,144 persistent words, and at most 16,384 symbols. Each entry is the number of a code word. The
/// symbols stand in their sections or at their ends, ascend by section, place and name, and no two have one
/// name. The type keeps all this.
#[derive(Debug, Drop)]
pub struct Image {
    pub entries: Vec<u32>,
    pub code: Vec<u32>,
    pub volatile: Vec<u64>,
    pub persistent: Vec<u64>,
    pub symbols: Vec<Symbol>,
}

impl Model for Image {
    ghost use Rattle.strand_image.specs.ImageSeen.{ImageSeen, image_seen};

    ghost Value = { ImageSeen };

    ghost use Rattle.strand_image.specs.Limits.{IsImage};

    ghost view = { λ s. image_seen s.entries.items s.code.items s.volatile.items
        s.persistent.items s.symbols.items };

    ghost invariant = { λ s. IsImage (image_seen s.entries.items s.code.items s.volatile.items s.persistent.items s.symbols.items) };
}

/// That a quantity is within the limits of a version.
pub(crate) fn check_limit(version: Version, what: Quantity, number: u64) -> Result<(), ImageFault>
    ensures { result ≡ limit_check version what number }
{
    if what.allows_in(version, number) {
        Ok(())
    } else {
        Err(ImageFault::Limit {
            field: what,
            value: number,
        })
    }
}

/// The first quantity outside its limits, if there is one.
#[tactic(auto, unfolding(crate::specs::Image::within_limits))]
pub(crate) fn check_limits(
    version: Version,
    cores: u64,
    code: u64,
    volatile: u64,
    persistent: u64,
    symbols: u64,
) -> Result<(), ImageFault>
    ensures gives { result ≡ within_limits version cores code volatile persistent symbols }
    ensures within { OnOk result (IsWithinLimits version cores code volatile persistent symbols) }
{
    check_limit(version, Quantity::Cores, cores)?;
    check_limit(version, Quantity::Code, code)?;
    check_limit(version, Quantity::Volatile, volatile)?;
    check_limit(version, Quantity::Persistent, persistent)?;
    check_limit(version, Quantity::Symbols, symbols)
}

fn stray_core(entries: &[u32], words: usize) -> Option<usize>
    ensures { result ≡ position (λ entry. nat_le words entry) entries.now }
{
    entries.iter().position(|entry| words <= *entry as usize)
}

/// The image of lists within their limits, unless an entry is no code word or a symbol breaks a rule.
#[tactic(auto, unfolding(crate::specs::Image::entries_exist, crate::specs::Image::symbols_stand, crate::specs::Image::kept_image))]
pub(crate) fn kept_image(
    entries: Vec<u32>,
    code: Vec<u32>,
    volatile: Vec<u64>,
    persistent: Vec<u64>,
    symbols: Vec<Symbol>,
) -> Result<Image, ImageFault>
    requires { IsWithinLimits Second (length entries.items) (length code.items) (length volatile.items) (length persistent.items) (length symbols.items) }
    ensures { result ≡ kept_image (image_seen entries.items code.items volatile.items persistent.items symbols.items) }
{
    if let Some(core) = stray_core(&entries, code.len()) {
        return Err(ImageFault::Entry {
            core: core as u32,
            value: entries[core],
        });
    }
    let sizes = SectionSizes {
        code: code.len() as u64,
        volatile: volatile.len() as u64,
        persistent: persistent.len() as u64,
    };
    let kept = count_before_fault(&symbols, sizes);
    if kept < symbols.len() {
        return Err(ImageFault::Symbol { index: kept as u32 });
    }
    Ok(Image {
        entries,
        code,
        volatile,
        persistent,
        symbols,
    })
}

impl Image {
    /// The image of these lists. It takes no memory and drops the lists on refusal.
    ///
    /// `Limit` comes exactly for the first of cores, code, volatile and persistent words and symbols whose
    /// number is outside its limits; `Entry` exactly where there is none, for the first entry that is no code
    /// word's number; and `Symbol` exactly where there is none of these, for the first symbol that is past its
    /// section's end, not behind the one before it, or of the name of an earlier one.
    #[tactic(auto, unfolding(crate::specs::Image::checked_image))]
    pub fn make(
        entries: Vec<u32>,
        code: Vec<u32>,
        volatile: Vec<u64>,
        persistent: Vec<u64>,
        symbols: Vec<Symbol>,
    ) -> Result<Image, ImageFault>
        ensures { result ≡ checked_image
            (image_seen entries.items code.items volatile.items persistent.items symbols.items) }
    {
        check_limits(
            Version::Second,
            entries.len() as u64,
            code.len() as u64,
            volatile.len() as u64,
            persistent.len() as u64,
            symbols.len() as u64,
        )?;
        kept_image(entries, code, volatile, persistent, symbols)
    }

    /// The number of the code word where each core begins.
    pub fn entries(&self) -> &[u32]
        ensures entries { result.now ≡ self.now.entries }
        ensures keeps { IsImage self.now }
    {
        &self.entries
    }

    /// The code words.
    pub fn code(&self) -> &[u32]
        ensures code { result.now ≡ self.now.code }
        ensures keeps { IsImage self.now }
    {
        &self.code
    }

    /// The words of volatile memory.
    pub fn volatile(&self) -> &[u64]
        ensures volatile { result.now ≡ self.now.volatile }
        ensures keeps { IsImage self.now }
    {
        &self.volatile
    }

    /// The words of persistent memory.
    pub fn persistent(&self) -> &[u64]
        ensures persistent { result.now ≡ self.now.persistent }
        ensures keeps { IsImage self.now }
    {
        &self.persistent
    }

    /// The symbols, by section, place and name.
    pub fn symbols(&self) -> &[Symbol]
        ensures symbols { result.now ≡ self.now.symbols }
        ensures keeps { IsImage self.now }
    {
        &self.symbols
    }
}
