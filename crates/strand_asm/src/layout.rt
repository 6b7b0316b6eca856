ghost use Rattle.std.specs.Prelude.{◌≡◌, ◌≤◌, OnOk};
ghost use Rattle.strand_base.specs.declared.limits.TheConstants.{MOST_CODE};
ghost use Rattle.strand_asm.specs.Layout.{empty_layout};
ghost use Rattle.strand_asm.specs.Assemble.{limited, limit_check};

use crate::AsmFault;
use crate::labels::Labels;
use std::alloc::Global;
use strand_asm_lines::Section;
use strand_image::Quantity;

/// How much a text has up to a line: the section there, the entries, the words of each section, and the
/// labels.
#[derive(Drop)]
pub(crate) struct Layout {
    pub section: Section,
    pub cores: u64,
    pub code: u64,
    pub volatile: u64,
    pub persistent: u64,
    pub labels: Labels,
}

/// The layout before the first line.
#[tactic(auto, unfolding(crate::specs::Layout::empty_layout))]
pub(crate) fn nothing(alloc: Global) -> Layout
    ensures { result ≡ empty_layout }
{
    Layout {
        section: Section::Code,
        cores: 0,
        code: 0,
        volatile: 0,
        persistent: 0,
        labels: Labels::new(alloc),
    }
}

fn check(what: Quantity, number: u64) -> Result<(), AsmFault>
    ensures { result ≡ limit_check what number }
{
    if what.allows(number) {
        Ok(())
    } else {
        Err(AsmFault::Limit { what, number })
    }
}

/// The first quantity outside its limits, if there is one.
#[tactic(auto, unfolding(crate::specs::Assemble::limited))]
pub(crate) fn check_limits(layout: &Layout) -> Result<(), AsmFault>
    ensures gives { result ≡ limited layout.now }
    ensures code { OnOk result (layout.now.code ≤ MOST_CODE) }
{
    let cores = if layout.cores == 0 { 1 } else { layout.cores };
    check(Quantity::Cores, cores)?;
    check(Quantity::Code, layout.code)?;
    check(Quantity::Volatile, layout.volatile)?;
    check(Quantity::Persistent, layout.persistent)?;
    check(Quantity::Symbols, layout.labels.count())
}
