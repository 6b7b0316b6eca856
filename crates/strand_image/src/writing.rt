ghost use Rattle.std.specs.Prelude.{◌≡◌, ◌∷◌, ◌<◌, ◌^◌, length, Ok};
ghost use Rattle.strand_base.specs.LittleEndian.{bytes_of_u32};
ghost use Rattle.strand_base.specs.Puts.{Puts};
ghost use Rattle.strand_image.specs.Limits.{IsImage};
ghost use Rattle.strand_image.specs.Symbols.{bytes_of_symbol, bytes_of_symbols, region_number};
ghost use Rattle.strand_image.specs.Image.{header_bytes, list_bytes, image_bytes, image_of};
ghost use Rattle.strand_image.specs.declared.version.Version.TheVariants.{Second};

use crate::Image;
use crate::checking::region_number;
use crate::symbol::Symbol;
use strand_base::{OutOfMemory, put, put_u32s, put_u64s};

/// How many bytes the symbols take.
fn symbols_size(symbols: &[Symbol]) -> u32
    requires { length (bytes_of_symbols symbols.now) < 2 ^ 32 }
    ensures { result ≡ length (bytes_of_symbols symbols.now) }
{
    let mut size = 0;
    for symbol in symbols {
        size += 6 + symbol.name.as_bytes().len() as u32;
    }
    size
}

#[tactic(auto, unfolding(strand_base::specs::LittleEndian::bytes_of_u32))]
fn put_place(into: &mut Vec<u8>, symbol: &Symbol) -> Result<(), OutOfMemory>
    ensures { Puts result (region_number symbol.now.region ∷ bytes_of_u32 symbol.now.place) into.old.items into.new.items }
{
    put(into, &[region_number(symbol.region)])?;
    put(into, &symbol.place.to_le_bytes())
}

fn put_name(into: &mut Vec<u8>, name: &[u8]) -> Result<(), OutOfMemory>
    requires { length name.now < 256 }
    ensures { Puts result (length name.now ∷ name.now) into.old.items into.new.items }
{
    put(into, &[name.len() as u8])?;
    put(into, name)
}

fn put_symbol(into: &mut Vec<u8>, symbol: &Symbol) -> Result<(), OutOfMemory>
    ensures { Puts result (bytes_of_symbol symbol.now) into.old.items into.new.items }
{
    put_place(into, symbol)?;
    put_name(into, symbol.name.as_bytes())
}

#[tactic(auto, unfolding(crate::specs::Symbols::bytes_of_symbols))]
fn put_symbols(into: &mut Vec<u8>, symbols: &[Symbol]) -> Result<(), OutOfMemory>
    ensures { Puts result (bytes_of_symbols symbols.now) into.old.items into.new.items }
{
    for symbol in symbols {
        put_symbol(into, symbol)?;
    }
    Ok(())
}

fn put_header(into: &mut Vec<u8>, image: &Image) -> Result<(), OutOfMemory>
    ensures text { Puts result (header_bytes Second image.now) into.old.items into.new.items }
    ensures keeps { IsImage image.now }
{
    let counts = [
        image.entries().len() as u32,
        image.code().len() as u32,
        image.volatile().len() as u32,
        image.persistent().len() as u32,
        image.symbols().len() as u32,
        symbols_size(image.symbols()),
    ];
    put(into, b"STRANDP2")?;
    put_u32s(into, &counts)
}

fn put_lists(into: &mut Vec<u8>, image: &Image) -> Result<(), OutOfMemory>
    ensures { Puts result (list_bytes image.now) into.old.items into.new.items }
{
    put_u32s(into, image.entries())?;
    put_u32s(into, image.code())?;
    put_u64s(into, image.volatile())?;
    put_u64s(into, image.persistent())?;
    put_symbols(into, image.symbols())
}

/// Appends the one spelling of an image in version 2, which is read back to it. Where memory ran out, a front
/// of it is appended.
pub fn write_image(image: &Image, into: &mut Vec<u8>) -> Result<(), OutOfMemory>
    ensures text { Puts result (image_bytes image.now) into.old.items into.new.items }
    ensures again { image_of (image_bytes image.now) ≡ Ok image.now }
{
    put_header(into, image)?;
    put_lists(into, image)
}
