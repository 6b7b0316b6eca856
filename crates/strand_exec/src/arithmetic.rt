ghost use Rattle.std.specs.Prelude.{◌≡◌, ◌+◌, ◌-◌, ◌*◌, ◌/◌, ◌%◌, ◌^◌, ◌<◌, ◌≤◌, ◌↔◌, IsTrue, nat_lt, bit_xor, bit_or, bit_and};
ghost use Rattle.strand_exec.specs.Arith.{extended, flag, imm_value, is_taken, merged, reg_value, residue, shift_value, shifted_signed, signed_less, upper_value};
ghost use Rattle.strand_exec.specs.Table.{plus};
ghost use Rattle.strand_isa.specs.Ops.{amount_bound};

use strand_isa::{BranchOp, ImmOp, RegOp, ShiftOp, UpperOp};

/// A signed number modulo 2^64.
pub(crate) fn residue(i: i32) -> u64
    ensures { result ≡ residue i }
{
    i64::from(i).cast_unsigned()
}

/// A value plus a signed number, modulo 2^64.
pub(crate) fn plus(a: u64, i: i32) -> u64
    ensures { result ≡ plus a i }
{
    a.wrapping_add(residue(i))
}

/// The low byte with its sign carried on.
pub(crate) fn byte(a: u64) -> u64
    ensures { result ≡ extended 8 a }
{
    let low = a % 0x100;
    if low < 0x80 {
        low
    } else {
        low + 0xffff_ffff_ffff_ff00
    }
}

/// The low two bytes with their sign carried on.
pub(crate) fn half(a: u64) -> u64
    ensures { result ≡ extended 16 a }
{
    let low = a % 0x1_0000;
    if low < 0x8000 {
        low
    } else {
        low + 0xffff_ffff_ffff_0000
    }
}

/// The low 32 bits with their sign carried on.
pub(crate) fn word(a: u64) -> u64
    ensures { result ≡ extended 32 a }
{
    let low = a % 0x1_0000_0000;
    if low < 0x8000_0000 {
        low
    } else {
        low + 0xffff_ffff_0000_0000
    }
}

fn add_word(a: u64, b: u64) -> u64
    ensures { result ≡ extended 32 (a + b) }
{
    word(a.wrapping_add(b))
}

fn less(a: u64, b: u64) -> bool
    ensures { result ≡ signed_less a b }
{
    a.cast_signed() < b.cast_signed()
}

/// A right shift that keeps the sign.
fn shift_right_signed(a: u64, k: u32) -> u64
    requires { k < 64 }
    ensures { result ≡ shifted_signed 64 a k }
{
    if a < 0x8000_0000_0000_0000 {
        a >> k
    } else {
        !(!a >> k)
    }
}

/// A right shift of 32 bits that keeps their sign.
fn shift_right_signed_word(a: u64, k: u32) -> u64
    requires amount { k < 32 }
    requires bits { a < 2 ^ 32 }
    ensures { result ≡ shifted_signed 32 a k }
{
    if a < 0x8000_0000 {
        a >> k
    } else {
        0xffff_ffff - ((0xffff_ffff - a) >> k)
    }
}

/// The value of an operation on an upper immediate.
pub(crate) fn upper_value(op: UpperOp, pc: u64, imm: u32) -> u64
    requires { imm < 1048576 }
    ensures { result ≡ upper_value op pc imm }
{
    let high = word(u64::from(imm) * 4096);
    match op {
        UpperOp::Lui => high,
        UpperOp::Auipc => pc.wrapping_add(high),
    }
}

/// Whether a branch is taken.
pub(crate) fn is_taken(op: BranchOp, a: u64, b: u64) -> bool
    ensures { result ≡ is_taken op a b }
{
    match op {
        BranchOp::Beq => a == b,
        BranchOp::Bne => a != b,
        BranchOp::Blt => less(a, b),
        BranchOp::Bge => !less(a, b),
        BranchOp::Bltu => a < b,
        BranchOp::Bgeu => a >= b,
    }
}

/// The value of an operation on a register and an immediate modulo 2^64.
pub(crate) fn imm_value(op: ImmOp, a: u64, i: u64) -> u64
    ensures { result ≡ imm_value op a i }
{
    match op {
        ImmOp::Addi => a.wrapping_add(i),
        ImmOp::Slti => u64::from(less(a, i)),
        ImmOp::Sltiu => u64::from(a < i),
        ImmOp::Xori => a ^ i,
        ImmOp::Ori => a | i,
        ImmOp::Andi => a & i,
        ImmOp::Addiw => add_word(a, i),
    }
}

/// The value of a shift by a constant.
pub(crate) fn shift_value(op: ShiftOp, a: u64, amount: u8) -> u64
    requires { amount < amount_bound op }
    ensures { result ≡ shift_value op a amount }
{
    let k = u32::from(amount);
    match op {
        ShiftOp::Slli => a << k,
        ShiftOp::Srli => a >> k,
        ShiftOp::Srai => shift_right_signed(a, k),
        ShiftOp::Slliw => word(a << k),
        ShiftOp::Srliw => word((a % 0x1_0000_0000) >> k),
        ShiftOp::Sraiw => word(shift_right_signed_word(a % 0x1_0000_0000, k)),
    }
}

/// The value of an operation on two registers.
pub(crate) fn reg_value(op: RegOp, a: u64, b: u64) -> u64
    ensures { result ≡ reg_value op a b }
{
    match op {
        RegOp::Add => a.wrapping_add(b),
        RegOp::Sub => a.wrapping_sub(b),
        RegOp::Sll => shift_value(ShiftOp::Slli, a, (b % 64) as u8),
        RegOp::Slt => u64::from(less(a, b)),
        RegOp::Sltu => u64::from(a < b),
        RegOp::Xor => a ^ b,
        RegOp::Srl => shift_value(ShiftOp::Srli, a, (b % 64) as u8),
        RegOp::Sra => shift_value(ShiftOp::Srai, a, (b % 64) as u8),
        RegOp::Or => a | b,
        RegOp::And => a & b,
        RegOp::Addw => add_word(a, b),
        RegOp::Subw => word(a.wrapping_sub(b)),
        RegOp::Sllw => shift_value(ShiftOp::Slliw, a, (b % 32) as u8),
        RegOp::Srlw => shift_value(ShiftOp::Srliw, a, (b % 32) as u8),
        RegOp::Sraw => shift_value(ShiftOp::Sraiw, a, (b % 32) as u8),
    }
}
