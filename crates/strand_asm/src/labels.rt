ghost use Rattle.std.specs.Prelude.{◌≡◌, ◌<◌, ◌^◌, ◌++◌, [], ◌∷◌, length, None, IfOk, IsTrue, OnOk};
ghost use Rattle.strand_base.specs.Name.{is_label};
ghost use Rattle.strand_asm.specs.Layout.{label_place};
ghost use Rattle.strand_asm.specs.Assemble.{AreLabels, label_symbol, label_symbols, region_of};

use crate::place::Place;
use indexmap::IndexMap;
use std::alloc::Global;
use std::hash::{BuildHasherDefault, DefaultHasher};
use std::marker::Model;
use strand_asm_lines::Section;
use strand_base::OutOfMemory;
use strand_image::{Label, Region, Symbol, put_in_order};

/// Names with their places, in the order of the text.
#[derive(Drop)]
pub(crate) struct Labels {
    places: IndexMap<String, Place, BuildHasherDefault<DefaultHasher>>,
}

impl Model for Labels {
    ghost use Rattle.std.specs.Prelude.{List, ℕ, map};
    ghost use Rattle.std.specs.String.{string_bytes};
    ghost use Rattle.strand_asm.specs.declared.place.Place.{Place};

    ghost Value = { List (List ℕ × Place) };

    ghost view = { λ s. map (λ e. (string_bytes e.0, e.1)) s.places.entries };
}

fn region_of(section: Section) -> Region
    ensures { result ≡ region_of section }
{
    match section {
        Section::Code => Region::Code,
        Section::Volatile => Region::Volatile,
        Section::Persist => Region::Persistent,
    }
}

/// Adds the symbol of a name at a place within the limits.
fn put_symbol(
    alloc: Global,
    symbols: &mut Vec<Symbol>,
    name: &str,
    place: Place,
) -> Result<(), OutOfMemory>
    requires name { IsTrue (is_label name.now) }
    requires place { place.index < 2 ^ 32 }
    ensures { OnOk result (symbols.new.items ≡ symbols.old.items ++ label_symbol (name.now, place) ∷ []) }
{
    let name = Label::copy(alloc, name)?;
    let symbol = Symbol {
        region: region_of(place.section),
        place: place.index as u32,
        name,
    };
    match symbols.push(symbol) {
        Ok(()) => Ok(()),
        Err(_) => Err(OutOfMemory),
    }
}

impl Labels {
    pub(crate) fn new(alloc: Global) -> Labels
        ensures { result ≡ [] }
    {
        Labels {
            places: IndexMap::with_hasher(alloc, BuildHasherDefault::new()),
        }
    }

    /// Where the label of a name stands.
    #[tactic(auto, unfolding(crate::specs::Layout::label_place))]
    pub(crate) fn label_place(&self, name: &str) -> Option<Place>
        ensures { result ≡ label_place self.now name.now }
    {
        self.places.get(name).copied()
    }

    /// How many names there are.
    pub(crate) fn count(&self) -> u64
        ensures { result ≡ length self.now }
    {
        self.places.len() as u64
    }

    /// The symbols of the names, in the order of an image.
    pub(crate) fn symbols(&self, alloc: Global) -> Result<Vec<Symbol>, OutOfMemory>
        requires { AreLabels self.now }
        ensures { IfOk result (λ symbols. symbols.items ≡ label_symbols self.now) }
    {
        let mut symbols = Vec::new(alloc);
        for k in 0..self.places.len() {
            if let Some((name, place)) = self.places.get_index(k) {
                put_symbol(alloc, &mut symbols, name.as_str(), *place)?;
            }
        }
        put_in_order(&mut symbols);
        Ok(symbols)
    }

    /// Adds a name that has no place yet.
    pub(crate) fn add(&mut self, alloc: Global, name: &str, place: Place) -> Result<(), OutOfMemory>
        requires { label_place self.old name.now ≡ None }
        ensures { OnOk result (self.new ≡ self.old ++ (name.now, place) ∷ []) }
    {
        let Ok(name) = String::from_str(alloc, name) else {
            return Err(OutOfMemory);
        };
        if self.places.insert(name, place).is_err() {
            return Err(OutOfMemory);
        }
        Ok(())
    }
}
