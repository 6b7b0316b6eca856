ghost use Rattle.std.specs.Prelude.{◌≡◌, ◌<◌};
ghost use Rattle.strand_isa.specs.Word.{IsValid};
ghost use Rattle.strand_exec.specs.Core.{next_pc};
ghost use Rattle.strand_exec.specs.Table.{row};
ghost use Rattle.strand_exec.specs.Effects.{HasRegister};

use crate::arithmetic::{imm_value, is_taken, plus, reg_value, residue, shift_value, upper_value};
use crate::core_state::CoreState;
use crate::effect::Effect;
use strand_isa::Instr;

/// The place after the instruction at pc.
pub(crate) fn next_pc(core: &CoreState) -> u64
    ensures { result ≡ next_pc core.now }
{
    core.pc.wrapping_add(4)
}

/// The row of the instruction table for a core.
#[tactic(auto, unfolding(crate::specs::Table::row))]
pub(crate) fn row(core: &CoreState, i: &Instr) -> Effect
    requires { IsValid i.now }
    ensures value { result ≡ row core.now i.now }
    ensures register { HasRegister result }
{
    match *i {
        Instr::Upper { op, rd, imm } => Effect::Write {
            rd,
            value: upper_value(op, core.pc, imm),
        },
        Instr::Jal { rd, offset } => Effect::Jump {
            rd,
            link: next_pc(core),
            target: plus(core.pc, offset),
        },
        Instr::Jalr { rd, rs1, imm } => Effect::Jump {
            rd,
            link: next_pc(core),
            target: plus(core.register(rs1), imm) / 2 * 2,
        },
        Instr::Branch {
            op,
            rs1,
            rs2,
            offset,
        } => {
            if is_taken(op, core.register(rs1), core.register(rs2)) {
                Effect::Goto {
                    target: plus(core.pc, offset),
                }
            } else {
                Effect::Nothing
            }
        }
        Instr::Load { op, rd, rs1, imm } => Effect::LoadFrom {
            op,
            rd,
            address: plus(core.register(rs1), imm),
        },
        Instr::Store { op, rs1, rs2, imm } => Effect::StoreTo {
            op,
            address: plus(core.register(rs1), imm),
            value: core.register(rs2),
        },
        Instr::Imm { op, rd, rs1, imm } => Effect::Write {
            rd,
            value: imm_value(op, core.register(rs1), residue(imm)),
        },
        Instr::Shift {
            op,
            rd,
            rs1,
            amount,
        } => Effect::Write {
            rd,
            value: shift_value(op, core.register(rs1), amount),
        },
        Instr::Reg { op, rd, rs1, rs2 } => Effect::Write {
            rd,
            value: reg_value(op, core.register(rs1), core.register(rs2)),
        },
        Instr::Fence { .. } => Effect::Nothing,
        Instr::Ecall => Effect::Call {
            number: core.register(17),
            value: core.register(10),
        },
        Instr::Ebreak => Effect::Halt,
        Instr::PersistBarrier => Effect::Barrier,
        Instr::NewStrand => Effect::BeginStrand,
        Instr::JoinStrand => Effect::Join,
    }
}
