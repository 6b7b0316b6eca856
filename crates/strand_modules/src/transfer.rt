// The copies of a module's words to a spare object.
ghost use Rattle.std.specs.Prelude.{◌≡◌, ◌+◌, ◌<◌, ◌≤◌, ◌^◌, ℕ, map, slice_index, slice_index_or, slice_set, vec_len};
ghost use Rattle.strand_base.specs.ModuleSeen.{ModuleSeen};
ghost use Rattle.strand_modules.specs.Transfer.{Moves};

use crate::copying::CopyFault;
use crate::parts::{load_part, store_part};
use strand_base::{ModuleFailed, PmModule};

// Why fewer words were copied than were to be.
#[derive(Clone, Copy, Debug, PartialEq, Eq)]
pub struct Missed {
    pub copied: u64,
    pub why: CopyFault,
}

// Copies so many words of one module to another, from a place on.
fn move_words(
    from: &mut Box<dyn PmModule>,
    to: &mut Box<dyn PmModule>,
    first: u64,
    count: u64,
) -> Result<(), Missed>
    requires from { 0 < count → first + count ≤ (holds from.old).size }
    requires to { 0 < count → first + count ≤ (holds to.old).size }
    requires bound { first + count < 2 ^ 64 }
    ensures { (size : ℕ) → Moves size first count (holds from.old) (holds from.new) (holds to.old) (holds to.new) result }
{
    for copied in 0..count {
        match load_part(from, first + copied) {
            Ok(value) => {
                if let Err(ModuleFailed) = store_part(to, first + copied, value) {
                    let why = CopyFault::Store;
                    return Err(Missed { copied, why });
                }
            }
            Err(ModuleFailed) => {
                let why = CopyFault::Load;
                return Err(Missed { copied, why });
            }
        }
    }
    Ok(())
}

// Copies so many words of one of the modules.
pub fn move_from(
    modules: &mut Vec<Box<dyn PmModule>>,
    index: usize,
    to: &mut Box<dyn PmModule>,
    first: u64,
    count: u64,
) -> Result<(), Missed>
    requires index { index < vec_len modules.old }
    requires from { 0 < count → first + count ≤ slice_index (map (λ m. m.size) (map holds modules.old.items)) index }
    requires to { 0 < count → first + count ≤ (holds to.old).size }
    requires bound { first + count < 2 ^ 64 }
    ensures { (after : ModuleSeen) × (map holds modules.new.items ≡ slice_set (map holds modules.old.items) index after)
        × ((size : ℕ) → Moves size first count (slice_index_or (map holds modules.old.items) index after) after (holds to.old) (holds to.new) result) }
{
    move_words(&mut modules[index], to, first, count)
}

// The module's object and the other one change places.
pub fn change_places(
    modules: &mut Vec<Box<dyn PmModule>>,
    index: usize,
    other: &mut Box<dyn PmModule>,
)
    requires { index < vec_len modules.old }
    ensures { (before : ModuleSeen) × (before ≡ slice_index_or (map holds modules.old.items) index before)
        × (map holds modules.new.items ≡ slice_set (map holds modules.old.items) index (holds other.old))
        × (holds other.new ≡ before) }
{
    std::mem::swap(&mut modules[index], other);
}
