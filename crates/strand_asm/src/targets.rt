ghost use Rattle.std.specs.Prelude.{◌≡◌, ◌<◌, ◌^◌, IfOk};
ghost use Rattle.strand_asm.specs.Encode.{address, label_address, code_word, offset_to, word_named};
ghost use Rattle.strand_asm.specs.declared.fault.AsmFault.{AsmFault};

use crate::AsmFault;
use crate::labels::Labels;
use crate::operands::number;
use crate::place::{Place, Site};
use strand_asm_lines::{Name, Operand, Section};
use strand_base::{CODE_BASE, PERSISTENT_BASE, VOLATILE_BASE};

fn code_word(place: Option<Place>) -> Option<u64>
    ensures { result ≡ code_word place }
{
    let place = place?;
    match place.section {
        Section::Code => Some(place.index),
        Section::Volatile | Section::Persist => None,
    }
}

/// The number of the code word that a label marks.
#[tactic(auto, unfolding(crate::specs::Encode::word_named))]
pub(crate) fn word_named(labels: &Labels, line: u32, name: &Name) -> Result<u64, AsmFault>
    ensures { result ≡ word_named labels.now line name.now }
{
    match code_word(labels.label_place(name.as_str())) {
        Some(index) => Ok(index),
        None => Err(AsmFault::Undefined { line }),
    }
}

/// The offset of a target from an instruction, in bytes.
#[tactic(auto, unfolding(crate::specs::Encode::offset_to))]
pub(crate) fn offset_to(labels: &Labels, site: Site, target: &Operand) -> Result<i128, AsmFault>
    ensures { result ≡ offset_to labels.now site target.now }
{
    match target {
        Operand::Label(name) => {
            let index = word_named(labels, site.line, name)?;
            Ok(4 * i128::from(index) - 4 * i128::from(site.at))
        }
        _ => Ok(number(target)),
    }
}

fn address(place: Place) -> u128
    ensures gives { result ≡ address place }
    ensures small { result < 2 ^ 100 }
{
    let index = u128::from(place.index);
    match place.section {
        Section::Code => u128::from(CODE_BASE) + 4 * index,
        Section::Volatile => u128::from(VOLATILE_BASE) + 8 * index,
        Section::Persist => u128::from(PERSISTENT_BASE) + 8 * index,
    }
}

/// The address that a label marks.
pub(crate) fn address_of(labels: &Labels, line: u32, operand: &Operand) -> Result<u128, AsmFault>
    ensures gives { result ≡ label_address labels.now line operand.now }
    ensures small { IfOk result (λ n. n < 2 ^ 100) }
{
    match operand {
        Operand::Label(name) => match labels.label_place(name.as_str()) {
            Some(place) => Ok(address(place)),
            None => Err(AsmFault::Undefined { line }),
        },
        _ => Ok(0),
    }
}
