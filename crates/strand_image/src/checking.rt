// The rules on the symbols of an image: which of them is the first that breaks one.
ghost use Rattle.std.specs.Prelude.{◌≡◌, ℕ, ◌<◌, ◌≤◌, [], IsTrue, false, length, slice_index, slice_index_or};
ghost use Rattle.std.specs.List.{AllPairs};
ghost use Rattle.std.specs.Str.{bytes_eq};
ghost use Rattle.strand_base.specs.declared.limits.TheConstants.{MOST_SYMBOLS};
ghost use Rattle.strand_base.specs.Name.{is_label};
ghost use Rattle.strand_image.specs.Symbols.{AreSymbols, in_order, region_number, count_before_fault, symbol_cmp, words_in};
ghost use Rattle.strand_image.specs.Checking.{AreDifferent, StandInTurn, IsByName, by_name, stands_in_turn, lowered, name_at, names_of};
ghost use Rattle.strand_image.specs.declared.symbol.Symbol.{Symbol};

use crate::symbol::{Region, Symbol};
use std::cmp::Ordering;
use strand_base::MOST_SYMBOLS;

/// How many words each section has.
#[derive(Clone, Copy)]
pub(crate) struct SectionSizes {
    pub code: u64,
    pub volatile: u64,
    pub persistent: u64,
}

fn words_in(sizes: SectionSizes, region: Region) -> u64
    ensures { result ≡ words_in sizes region }
{
    match region {
        Region::Code => sizes.code,
        Region::Volatile => sizes.volatile,
        Region::Persistent => sizes.persistent,
    }
}

/// The number by which a file tells a section.
pub fn region_number(region: Region) -> u8
    ensures { result ≡ region_number region }
{
    match region {
        Region::Code => 0,
        Region::Volatile => 1,
        Region::Persistent => 2,
    }
}

/// The order of symbols: by section, then by place, then by the bytes of the name.
pub(crate) fn compare(a: &Symbol, b: &Symbol) -> Ordering
    ensures { result ≡ symbol_cmp a.now b.now }
{
    region_number(a.region)
        .cmp(&region_number(b.region))
        .then(a.place.cmp(&b.place))
        .then(a.name.as_bytes().cmp(b.name.as_bytes()))
}

/// Puts symbols of which no two have one name in the order of an image. It takes no memory.
pub fn put_in_order(symbols: &mut [Symbol])
    requires { AllPairs (λ a b. bytes_eq a.name b.name ≡ false) symbols.old }
    ensures { symbols.new ≡ in_order symbols.old }
{
    symbols.sort_unstable_by(|a, b| compare(a, b));
}

/// Whether a symbol stands in its section, and behind the one before it.
fn stands_in_turn(symbols: &[Symbol], k: usize, sizes: SectionSizes) -> bool
    requires { k < length symbols.now }
    ensures gives { (d : Symbol) → result ≡ stands_in_turn sizes symbols.now k d }
    ensures label { (d : Symbol) → IsTrue (is_label (slice_index_or symbols.now k d).name) }
{
    let symbol = &symbols[k];
    let _ = symbol.name.as_bytes();
    if words_in(sizes, symbol.region) < u64::from(symbol.place) {
        return false;
    }
    if k == 0 {
        return true;
    }
    compare(&symbols[k - 1], symbol) == Ordering::Less
}

/// How many symbols stand before the first that is out of its section or not behind the one before it.
fn first_misplaced(symbols: &[Symbol], sizes: SectionSizes) -> usize
    ensures { StandInTurn sizes symbols.now result }
{
    for k in 0..symbols.len() {
        if !stands_in_turn(symbols, k, sizes) {
            return k;
        }
    }
    symbols.len()
}

/// The name of a symbol; nothing where there is none with that number.
fn name_at(symbols: &[Symbol], k: u16) -> &[u8]
    ensures { result.now ≡ name_at (names_of symbols.now) k }
{
    match symbols.get(k as usize) {
        Some(symbol) => symbol.name.as_bytes(),
        None => &[],
    }
}

/// The order of symbols by their names, and where these are equal by their numbers.
fn compare_names(symbols: &[Symbol], a: u16, b: u16) -> Ordering
    ensures { result ≡ by_name (names_of symbols.now) a b }
{
    name_at(symbols, a).cmp(name_at(symbols, b)).then(a.cmp(&b))
}

fn number(order: &mut [u16])
    requires { length order.old ≤ MOST_SYMBOLS }
    ensures { (k : ℕ) → k < length order.new → slice_index order.new k ≡ k }
{
    let mut k = 0;
    for slot in order.iter_mut() {
        *slot = k;
        k += 1;
    }
}

fn sort_by_name(symbols: &[Symbol], order: &mut [u16])
    requires long { length order.old ≡ length symbols.now }
    requires few { length symbols.now ≤ MOST_SYMBOLS }
    ensures { IsByName (names_of symbols.now) order.new }
{
    number(order);
    order.sort_unstable_by(|a, b| compare_names(symbols, *a, *b));
}

/// The least of numbers so far, and the one at a place where it has the name of the one before it.
fn lowered(symbols: &[Symbol], order: &[u16], k: usize, least: usize) -> usize
    requires place { 0 < k }
    requires end { k < length order.now }
    ensures { result ≡ lowered (names_of symbols.now) order.now k least }
{
    let at = order[k];
    if name_at(symbols, order[k - 1]) == name_at(symbols, at) {
        least.min(at as usize)
    } else {
        least
    }
}

/// The least number whose name an earlier one has; the number of symbols where there is none.
fn least_repeated(symbols: &[Symbol], order: &[u16]) -> usize
    requires { IsByName (names_of symbols.now) order.now }
    ensures { AreDifferent (names_of symbols.now) result }
{
    let mut least = symbols.len();
    for k in 1..order.len() {
        least = lowered(symbols, order, k, least);
    }
    least
}

const ROOM: usize = MOST_SYMBOLS as usize;

/// How many symbols stand before the first whose name one of them has. The symbols are put in the order of
/// their names by their numbers, so this takes no memory and a time that grows nearly as their number does.
fn first_repeated(symbols: &[Symbol]) -> usize
    requires { length symbols.now ≤ MOST_SYMBOLS }
    ensures { AreDifferent (names_of symbols.now) result }
{
    let mut room = [0; ROOM];
    let order = &mut room[..symbols.len()];
    sort_by_name(symbols, order);
    least_repeated(symbols, order)
}

/// How many symbols stand before the first that breaks a rule.
pub(crate) fn count_before_fault(symbols: &[Symbol], sizes: SectionSizes) -> usize
    requires { length symbols.now ≤ MOST_SYMBOLS }
    ensures gives { result ≡ count_before_fault sizes [] symbols.now }
    ensures stand { length symbols.now ≤ result → AreSymbols sizes symbols.now }
{
    let placed = first_misplaced(symbols, sizes);
    first_repeated(&symbols[..placed])
}
