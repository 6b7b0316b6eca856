ghost use Rattle.std.specs.Prelude.{◌≡◌, ◌≤◌, ◌++◌, [], ◌∷◌, length, IfOk, IfSome, IsTrue, Ok, OnOk};
ghost use Rattle.std.specs.Option.{option_map};
ghost use Rattle.strand_base.specs.Name.{is_label};
ghost use Rattle.strand_image.specs.ImageSeen.{ImageSeen, image_seen};
ghost use Rattle.strand_image.specs.Limits.{IsImage, IsWithinLimits, IsWithinBy};
ghost use Rattle.strand_image.specs.declared.version.Version.TheVariants.{Second};
ghost use Rattle.strand_image.specs.Symbols.{is_whole, region_with_number, spelt_symbols, symbol_of};
ghost use Rattle.strand_image.specs.Reading.{seen};
ghost use Rattle.strand_image.specs.Image.{header_at, header_of, header_within, file_length, has_bytes, has_length, head_length, named_version, image_of, parts_image, version_of, whole_image, GivesImage, Spells};
ghost use Rattle.strand_image.specs.declared.quantity.Quantity.TheVariants.{Names};

use crate::image::{check_limit, check_limits, kept_image};
use crate::label::Label;
use crate::symbol::{Region, Symbol};
use crate::version::Version;
use crate::{Image, ImageFault, Quantity};
use std::alloc::Global;
use strand_base::{OutOfMemory, is_label, read_u32s, read_u64s, u32_at};

/// The version of a file, and the numbers that it says it has. Version 1 has no symbols.
#[derive(Clone, Copy)]
struct Header {
    version: Version,
    cores: u32,
    code: u32,
    volatile: u32,
    persistent: u32,
    symbols: u32,
    names: u32,
}

fn head_length(version: Version) -> usize
    ensures { result ≡ head_length version }
{
    match version {
        Version::First => 24,
        Version::Second => 32,
    }
}

fn header_at(version: Version, bytes: &[u8]) -> Header
    requires { head_length version ≤ length bytes.now }
    ensures { result ≡ header_at version bytes.now }
{
    let (symbols, names) = match version {
        Version::First => (0, 0),
        Version::Second => (u32_at(bytes, 24), u32_at(bytes, 28)),
    };
    Header {
        version,
        cores: u32_at(bytes, 8),
        code: u32_at(bytes, 12),
        volatile: u32_at(bytes, 16),
        persistent: u32_at(bytes, 20),
        symbols,
        names,
    }
}

fn check_bytes(need: usize, bytes: &[u8]) -> Result<(), ImageFault>
    ensures { result ≡ has_bytes need bytes.now }
{
    if bytes.len() < need {
        Err(ImageFault::Short {
            need: need as u64,
            have: bytes.len() as u64,
        })
    } else {
        Ok(())
    }
}

#[tactic(auto, unfolding(crate::specs::Image::version_of))]
fn version_of(bytes: &[u8]) -> Result<Version, ImageFault>
    ensures { result ≡ version_of bytes.now }
{
    check_bytes(24, bytes)?;
    let magic = &bytes[..8];
    if magic == b"STRANDP1".as_slice() {
        Ok(Version::First)
    } else if magic == b"STRANDP2".as_slice() {
        Ok(Version::Second)
    } else {
        Err(ImageFault::Magic)
    }
}

#[tactic(auto, unfolding(crate::specs::Image::header_within))]
fn header_within(header: Header) -> Result<Header, ImageFault>
    ensures gives { result ≡ header_within header }
    ensures within { IfOk result (λ h. IsWithinLimits h.version h.cores h.code h.volatile h.persistent h.symbols) }
    ensures names { IfOk result (λ h. IsWithinBy h.version Names h.names) }
    ensures same { IfOk result (λ h. h ≡ header) }
{
    check_limits(
        header.version,
        u64::from(header.cores),
        u64::from(header.code),
        u64::from(header.volatile),
        u64::from(header.persistent),
        u64::from(header.symbols),
    )?;
    check_limit(header.version, Quantity::Names, u64::from(header.names))?;
    Ok(header)
}

#[tactic(auto, unfolding(crate::specs::Image::header_of))]
fn header_of(bytes: &[u8]) -> Result<Header, ImageFault>
    ensures gives { result ≡ header_of bytes.now }
    ensures within { IfOk result (λ h. IsWithinLimits h.version h.cores h.code h.volatile h.persistent h.symbols) }
    ensures names { IfOk result (λ h. IsWithinBy h.version Names h.names) }
{
    let version = version_of(bytes)?;
    check_bytes(head_length(version), bytes)?;
    header_within(header_at(version, bytes))
}

fn check_length(header: Header, have: u64) -> Result<(), ImageFault>
    ensures { result ≡ has_length (file_length header) have }
{
    let need = head_length(header.version) as u64
        + 4 * u64::from(header.cores)
        + 4 * u64::from(header.code)
        + 8 * u64::from(header.volatile)
        + 8 * u64::from(header.persistent)
        + u64::from(header.names);
    if have < need {
        Err(ImageFault::Short { need, have })
    } else if need < have {
        Err(ImageFault::Long { need, have })
    } else {
        Ok(())
    }
}

fn region_with_number(byte: u8) -> Option<Region>
    ensures { result ≡ region_with_number byte }
{
    match byte {
        0 => Some(Region::Code),
        1 => Some(Region::Volatile),
        2 => Some(Region::Persistent),
        _ => None,
    }
}

/// What the bytes of a symbol say, and the bytes behind it.
#[derive(Clone, Copy)]
struct Spelt<'a> {
    region: Region,
    place: u32,
    name: &'a [u8],
    rest: &'a [u8],
}

/// The symbol that bytes begin with, and the bytes behind it.
#[tactic(auto, unfolding(crate::specs::Symbols::symbol_of))]
fn symbol_of(bytes: &[u8]) -> Option<Spelt<'_>>
    ensures gives { option_map (λ s. (seen s, s.rest.now)) result ≡ symbol_of bytes.now }
    ensures label { IfSome result (λ s. IsTrue (is_label s.name.now)) }
{
    if bytes.len() < 6 {
        return None;
    }
    let size = bytes[5] as usize;
    if bytes.len() < 6 + size {
        return None;
    }
    let region = region_with_number(bytes[0])?;
    let name = &bytes[6..6 + size];
    if !is_label(name) {
        return None;
    }
    Some(Spelt {
        region,
        place: u32_at(bytes, 1),
        name,
        rest: &bytes[6 + size..],
    })
}

fn put_symbol(alloc: Global, spelt: &Spelt<'_>, into: &mut Vec<Symbol>) -> Result<(), OutOfMemory>
    requires { IsTrue (is_label spelt.now.name.now) }
    ensures { OnOk result (into.new.items ≡ into.old.items ++ seen spelt.now ∷ []) }
{
    let name = Label::of_bytes(alloc, spelt.name)?;
    let symbol = Symbol {
        region: spelt.region,
        place: spelt.place,
        name,
    };
    match into.push(symbol) {
        Ok(()) => Ok(()),
        Err(_) => Err(OutOfMemory),
    }
}

/// Reads symbols from the start of a part, at most so many, up to the first that is none. It tells whether
/// there were so many and nothing behind them.
fn read_symbols(
    alloc: Global,
    part: &[u8],
    count: u32,
    into: &mut Vec<Symbol>,
) -> Result<bool, OutOfMemory>
    requires { into.old.items ≡ [] }
    ensures symbols { OnOk result (into.new.items ≡ (spelt_symbols count part.now).0) }
    ensures whole { IfOk result (λ whole. whole ≡ is_whole count (spelt_symbols count part.now)) }
{
    let mut rest = part;
    for _ in 0..count {
        let Some(spelt) = symbol_of(rest) else {
            return Ok(false);
        };
        put_symbol(alloc, &spelt, into)?;
        rest = spelt.rest;
    }
    Ok(rest.is_empty())
}

/// The image of lists within their limits, unless its symbols are not all.
#[tactic(auto, unfolding(crate::specs::Image::whole_image))]
fn whole_image(
    entries: Vec<u32>,
    code: Vec<u32>,
    volatile: Vec<u64>,
    persistent: Vec<u64>,
    symbols: Vec<Symbol>,
    whole: bool,
) -> Result<Image, ImageFault>
    requires { IsWithinLimits Second (length entries.items) (length code.items) (length volatile.items) (length persistent.items) (length symbols.items) }
    ensures { result ≡ whole_image (image_seen entries.items code.items volatile.items persistent.items symbols.items) whole }
{
    let count = symbols.len() as u32;
    let image = kept_image(entries, code, volatile, persistent, symbols)?;
    if whole {
        Ok(image)
    } else {
        Err(ImageFault::Symbol { index: count })
    }
}

fn read_parts(alloc: Global, bytes: &[u8], header: Header) -> Result<Image, ImageFault>
    requires within { IsWithinLimits header.version header.cores header.code header.volatile header.persistent header.symbols }
    requires whole { length bytes.now ≡ file_length header }
    ensures { GivesImage result (parts_image header bytes.now) }
{
    let entries = bytes.split_at(head_length(header.version)).1;
    let code = entries.split_at(4 * header.cores as usize).1;
    let volatile = code.split_at(4 * header.code as usize).1;
    let persistent = volatile.split_at(8 * header.volatile as usize).1;
    let part = persistent.split_at(8 * header.persistent as usize).1;
    let Ok(entries) = read_u32s(alloc, entries, header.cores) else {
        return Err(ImageFault::OutOfMemory);
    };
    let Ok(code) = read_u32s(alloc, code, header.code) else {
        return Err(ImageFault::OutOfMemory);
    };
    let Ok(volatile) = read_u64s(alloc, volatile, header.volatile) else {
        return Err(ImageFault::OutOfMemory);
    };
    let Ok(persistent) = read_u64s(alloc, persistent, header.persistent) else {
        return Err(ImageFault::OutOfMemory);
    };
    let mut symbols = Vec::new(alloc);
    let Ok(whole) = read_symbols(alloc, part, header.symbols, &mut symbols) else {
        return Err(ImageFault::OutOfMemory);
    };
    whole_image(entries, code, volatile, persistent, symbols, whole)
}

/// The image that a file's bytes spell, in version 1 or 2.
///
/// The faults are exactly these, the first of them in this order: `Short` with need 24 where there
/// are fewer than 24 bytes; `Magic` where the first eight are neither `STRANDP1` nor `STRANDP2`; `Short` with
/// need 32 where there are fewer than 32 and the version is 2; `Limit` for the first of cores, code, volatile
/// and persistent words, symbols and bytes of symbols whose number is outside the limits of the version;
/// `Short` or `Long` where the file has another length than its numbers give; `Entry` for the first entry
/// that is no code word's number; and `Symbol` for the first symbol that isn't wholly there, isn't of its form
/// or breaks a rule, or for the number of symbols where bytes are left behind them. `OutOfMemory` may come in
/// place of an image, of `Entry` or of `Symbol`. Each spelling of an image is read back to it, and what is read
/// is spelt so: an image has one spelling in version 2, and one in version 1 exactly where that can say it.
#[tactic(auto, unfolding(crate::specs::Image::image_of))]
pub fn read_image(alloc: Global, bytes: &[u8]) -> Result<Image, ImageFault>
    ensures gives { GivesImage result (image_of bytes.now) }
    ensures spelling { IfOk result (λ image. Spells bytes.now image) }
    ensures again { (image : ImageSeen) → IsImage image → Spells bytes.now image → GivesImage result (Ok image) }
{
    let header = header_of(bytes)?;
    check_length(header, bytes.len() as u64)?;
    read_parts(alloc, bytes, header)
}
