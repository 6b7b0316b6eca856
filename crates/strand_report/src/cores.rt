ghost use Rattle.std.specs.Prelude.{◌≤◌, length};
ghost use Rattle.strand_base.specs.Puts.{Puts};
ghost use Rattle.strand_report.specs.Cores.{core_line, core_lines, reg_line};
ghost use Rattle.strand_report.specs.Numbered.{numbered_texts};

use crate::fields::Field::{Decimal, Hex, Register, Word};
use crate::fields::put_fields;
use strand_base::OutOfMemory;
use strand_exec::{CoreState, Life, Trap};

fn put_core_line(into: &mut Vec<u8>, core: usize, state: &CoreState) -> Result<(), OutOfMemory>
    ensures { Puts result (core_line core state.now) into.old.items into.new.items }
{
    let front = [
        Word("core"),
        Decimal(core as u64),
        Word("pc"),
        Hex(state.pc),
    ];
    match state.life {
        Life::Running => put_fields(into, &front, &[Word("running")]),
        Life::Halted => put_fields(into, &front, &[Word("halted")]),
        Life::Trapped(Trap::Fetch) => put_fields(into, &front, &[Word("trap"), Word("fetch")]),
        Life::Trapped(Trap::Target { at }) => {
            put_fields(into, &front, &[Word("trap"), Word("target"), Hex(at)])
        }
        Life::Trapped(Trap::Illegal) => put_fields(into, &front, &[Word("trap"), Word("illegal")]),
        Life::Trapped(Trap::Misaligned { at }) => {
            put_fields(into, &front, &[Word("trap"), Word("misaligned"), Hex(at)])
        }
        Life::Trapped(Trap::Access { at }) => {
            put_fields(into, &front, &[Word("trap"), Word("access"), Hex(at)])
        }
        Life::Trapped(Trap::Call { number }) => {
            put_fields(into, &front, &[Word("trap"), Word("call"), Hex(number)])
        }
    }
}

/// The line of a register, where it is not 0.
fn put_reg(into: &mut Vec<u8>, core: usize, reg: usize, word: u64) -> Result<(), OutOfMemory>
    ensures { Puts result (reg_line core reg word) into.old.items into.new.items }
{
    if word == 0 {
        return Ok(());
    }
    put_fields(
        into,
        &[Word("reg"), Decimal(core as u64)],
        &[Register(reg as u64), Hex(word)],
    )
}

fn put_regs(into: &mut Vec<u8>, core: usize, regs: &[u64]) -> Result<(), OutOfMemory>
    ensures { Puts result (numbered_texts (reg_line core) regs.now) into.old.items into.new.items }
{
    for (reg, word) in regs.iter().enumerate() {
        put_reg(into, core, reg, *word)?;
    }
    Ok(())
}

fn put_core(into: &mut Vec<u8>, core: usize, state: &CoreState) -> Result<(), OutOfMemory>
    ensures { Puts result (core_lines core state.now) into.old.items into.new.items }
{
    put_core_line(into, core, state)?;
    put_regs(into, core, &state.regs)
}

/// Appends the lines of the cores, which are numbered from 0.
pub(crate) fn put_cores(into: &mut Vec<u8>, cores: &[CoreState]) -> Result<(), OutOfMemory>
    ensures { Puts result (numbered_texts core_lines cores.now) into.old.items into.new.items }
{
    for (core, state) in cores.iter().enumerate() {
        put_core(into, core, state)?;
    }
    Ok(())
}
