ghost use Rattle.std.specs.Prelude.{◌≡◌, ◌+◌, ◌*◌, ◌/◌, ◌%◌, ◌<◌, Some};
ghost use Rattle.strand_isa.specs.Decode.{instr_of};
ghost use Rattle.strand_isa.specs.Ops.{AreSmallCodes};
ghost use Rattle.strand_isa.specs.Word.{IsValid, IsInRange, b_form, field_of, i_form, j_form, s_form, instr_word};

use crate::instr::Instr;
use crate::opcodes::{JAL, JALR, MISC_MEM};
use crate::ops::{Codes, branch_row, imm_row, load_row, reg_row, shift_row, store_row, upper_row};

/// A signed number as a field of values below `2 * half`.
fn field(half: u32, z: i32) -> u32
    requires half { half < 2000000 }
    requires within { IsInRange half z }
    ensures field { result ≡ field_of half z }
    ensures small { result < 2 * half }
{
    if z < 0 {
        2 * half - z.unsigned_abs()
    } else {
        z.unsigned_abs()
    }
}

/// The I form: opcode, rd, funct3, rs1 and twelve bits.
fn i_form(opcode: u32, rd: u8, funct3: u32, rs1: u8, imm: u32) -> u32
    requires opcode { opcode < 128 }
    requires rd { rd < 32 }
    requires funct3 { funct3 < 8 }
    requires rs1 { rs1 < 32 }
    requires imm { imm < 4096 }
    ensures { result ≡ i_form opcode rd funct3 rs1 imm }
{
    opcode + u32::from(rd) * 128 + funct3 * 4096 + u32::from(rs1) * 32768 + imm * 1048576
}

/// The I form with the opcode and the funct3 of an operation.
fn operation(codes: Codes, rd: u8, rs1: u8, imm: u32) -> u32
    requires codes { AreSmallCodes 128 codes }
    requires rd { rd < 32 }
    requires rs1 { rs1 < 32 }
    requires imm { imm < 4096 }
    ensures { result ≡ i_form codes.opcode rd codes.funct3 rs1 imm }
{
    i_form(codes.opcode, rd, codes.funct3, rs1, imm)
}

/// The S form: opcode, funct3, rs1, rs2 and a split field of twelve bits.
fn s_form(opcode: u32, funct3: u32, rs1: u8, rs2: u8, imm: u32) -> u32
    requires opcode { opcode < 128 }
    requires funct3 { funct3 < 8 }
    requires rs1 { rs1 < 32 }
    requires rs2 { rs2 < 32 }
    requires imm { imm < 4096 }
    ensures { result ≡ s_form opcode funct3 rs1 rs2 imm }
{
    opcode
        + imm % 32 * 128
        + funct3 * 4096
        + u32::from(rs1) * 32768
        + u32::from(rs2) * 1048576
        + imm / 32 * 33554432
}

/// The B form: opcode, funct3, rs1, rs2 and a split field of thirteen bits.
fn b_form(opcode: u32, funct3: u32, rs1: u8, rs2: u8, imm: u32) -> u32
    requires opcode { opcode < 128 }
    requires funct3 { funct3 < 8 }
    requires rs1 { rs1 < 32 }
    requires rs2 { rs2 < 32 }
    requires imm { imm < 8192 }
    ensures { result ≡ b_form opcode funct3 rs1 rs2 imm }
{
    opcode
        + imm / 2048 % 2 * 128
        + imm / 2 % 16 * 256
        + funct3 * 4096
        + u32::from(rs1) * 32768
        + u32::from(rs2) * 1048576
        + imm / 32 % 64 * 33554432
        + imm / 4096 * 2147483648
}

/// The J form: opcode, rd and a split field of 21 bits.
fn j_form(opcode: u32, rd: u8, imm: u32) -> u32
    requires opcode { opcode < 128 }
    requires rd { rd < 32 }
    requires imm { imm < 2097152 }
    ensures { result ≡ j_form opcode rd imm }
{
    opcode
        + u32::from(rd) * 128
        + imm / 4096 % 256 * 4096
        + imm / 2048 % 2 * 1048576
        + imm / 2 % 1024 * 2097152
        + imm / 1048576 * 2147483648
}

/// The fields of an instruction, each at its place.
fn placed(i: &Instr) -> u32
    requires { IsValid i.now }
    ensures { result ≡ instr_word i.now }
{
    match *i {
        Instr::Upper { op, rd, imm } => upper_row(op).1.opcode + u32::from(rd) * 128 + imm * 4096,
        Instr::Jal { rd, offset } => j_form(JAL, rd, field(1048576, offset)),
        Instr::Jalr { rd, rs1, imm } => i_form(JALR, rd, 0, rs1, field(2048, imm)),
        Instr::Branch {
            op,
            rs1,
            rs2,
            offset,
        } => {
            let codes = branch_row(op).1;
            b_form(codes.opcode, codes.funct3, rs1, rs2, field(4096, offset))
        }
        Instr::Load { op, rd, rs1, imm } => operation(load_row(op).1, rd, rs1, field(2048, imm)),
        Instr::Store { op, rs1, rs2, imm } => {
            let codes = store_row(op).1;
            s_form(codes.opcode, codes.funct3, rs1, rs2, field(2048, imm))
        }
        Instr::Imm { op, rd, rs1, imm } => operation(imm_row(op).1, rd, rs1, field(2048, imm)),
        Instr::Shift {
            op,
            rd,
            rs1,
            amount,
        } => {
            let codes = shift_row(op).1;
            operation(codes, rd, rs1, u32::from(amount) + codes.top * 64)
        }
        Instr::Reg { op, rd, rs1, rs2 } => {
            let codes = reg_row(op).1;
            operation(codes, rd, rs1, u32::from(rs2) + codes.top * 32)
        }
        Instr::Fence { rd, rs1, bits } => i_form(MISC_MEM, rd, 0, rs1, u32::from(bits)),
        Instr::Ecall => 0x00000073,
        Instr::Ebreak => 0x00100073,
        Instr::PersistBarrier => 0x0000000b,
        Instr::NewStrand => 0x0000100b,
        Instr::JoinStrand => 0x0000200b,
    }
}

/// The word of an instruction whose fields are in their ranges (RISC-V Unprivileged ISA, RV64I).
pub fn encode(i: &Instr) -> u32
    requires { IsValid i.now }
    ensures word { result ≡ instr_word i.now }
    ensures back { instr_of result ≡ Some i.now }
{
    placed(i)
}
