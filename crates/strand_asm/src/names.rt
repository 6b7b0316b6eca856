ghost use Rattle.std.specs.Prelude.{◌≡◌, ◌++◌, ◌∷◌, []};
ghost use Rattle.std.specs.List.{filter};
ghost use Rattle.strand_base.specs.Puts.{Puts};
ghost use Rattle.strand_asm.specs.Listing.{Ascend, PutsLines, is_before, name_text, name_texts, stands_at};

use strand_base::{OutOfMemory, put};
use strand_image::{Region, Symbol, region_number};

/// Whether a symbol stands before a place of a section.
fn is_before(symbol: &Symbol, region: Region, place: u32) -> bool
    ensures { result ≡ is_before region place symbol.now }
{
    let a = region_number(symbol.region);
    let b = region_number(region);
    a < b || a == b && symbol.place < place
}

fn stands_at(symbol: &Symbol, region: Region, place: u32) -> bool
    ensures { result ≡ stands_at region place symbol.now }
{
    region_number(symbol.region) == region_number(region) && symbol.place == place
}

/// The symbols at a place of a section. They stand one behind the other.
pub(crate) fn standing_at(symbols: &[Symbol], region: Region, place: u32) -> &[Symbol]
    requires { Ascend symbols.now }
    ensures { result.now ≡ filter (stands_at region place) symbols.now }
{
    let from = symbols.partition_point(|s| is_before(s, region, place));
    let behind = symbols.split_at(from).1;
    let count = behind.partition_point(|s| stands_at(s, region, place));
    behind.split_at(count).0
}

fn put_name(into: &mut Vec<u8>, symbol: &Symbol) -> Result<(), OutOfMemory>
    ensures { Puts result (name_text symbol.now ++ 10 ∷ []) into.old.items into.new.items }
{
    put(into, symbol.name.as_str().as_bytes())?;
    put(into, b":\n")
}

pub(crate) fn put_names(into: &mut Vec<u8>, symbols: &[Symbol]) -> Result<(), OutOfMemory>
    ensures { PutsLines result (name_texts symbols.now) into.old.items into.new.items }
{
    for symbol in symbols {
        put_name(into, symbol)?;
    }
    Ok(())
}
