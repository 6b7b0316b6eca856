ghost use Rattle.std.specs.Prelude.{◌≡◌, ◌↔◌, ◌<◌, MatchResult, IsOk, None, Some};
ghost use Rattle.strand_isa.specs.Word.{IsValid};
ghost use Rattle.strand_isa.specs.Faults.{fault_unless_below, even_range_fault, fault_of, first_of, range_fault};
ghost use Rattle.strand_isa.specs.declared.fault.Field.{Field};

use crate::fault::{Field, FieldFault};
use crate::instr::Instr;
use crate::ops::amount_bound;

/// The fault of a field that has to be below `bound`.
fn below(field: Field, bound: u32, n: u32) -> Option<FieldFault>
    ensures { result ≡ fault_unless_below field bound n }
{
    if n < bound {
        None
    } else {
        Some(FieldFault {
            field,
            value: i64::from(n),
        })
    }
}

/// The fault of a field that has to be from `-half` to `half - 1`.
fn range_fault(field: Field, half: u32, z: i32) -> Option<FieldFault>
    requires { half < 2000000 }
    ensures { result ≡ range_fault field half z }
{
    if -(half as i32) <= z && z < half as i32 {
        None
    } else {
        Some(FieldFault {
            field,
            value: i64::from(z),
        })
    }
}

/// The fault of a field that has to be even, from `-half` to `half - 2`.
fn even_range_fault(field: Field, half: u32, z: i32) -> Option<FieldFault>
    requires { half < 2000000 }
    ensures { result ≡ even_range_fault field half z }
{
    if -(half as i32) <= z && z < half as i32 && z % 2 == 0 {
        None
    } else {
        Some(FieldFault {
            field,
            value: i64::from(z),
        })
    }
}

/// The fault of a field that names a register.
fn register(field: Field, n: u8) -> Option<FieldFault>
    ensures { result ≡ fault_unless_below field 32 n }
{
    below(field, 32, u32::from(n))
}

/// The first fault of two.
fn first(a: Option<FieldFault>, b: Option<FieldFault>) -> Option<FieldFault>
    ensures { result ≡ first_of a b }
{
    match a {
        Some(fault) => Some(fault),
        None => b,
    }
}

/// The fault of two fields that name registers.
fn registers(one: Field, n: u8, other: Field, m: u8) -> Option<FieldFault>
    ensures { result ≡ first_of (fault_unless_below one 32 n) (fault_unless_below other 32 m) }
{
    first(register(one, n), register(other, m))
}

/// The first field, in the order of the variant, that is outside its range.
#[tactic(auto, unfolding(crate::specs::Faults::fault_of))]
fn fault(i: &Instr) -> Option<FieldFault>
    ensures { result ≡ fault_of i.now }
{
    match *i {
        Instr::Upper { op: _, rd, imm } => {
            first(register(Field::Rd, rd), below(Field::Imm, 1048576, imm))
        }
        Instr::Jal { rd, offset } => first(
            register(Field::Rd, rd),
            even_range_fault(Field::Offset, 1048576, offset),
        ),
        Instr::Jalr { rd, rs1, imm } => first(
            registers(Field::Rd, rd, Field::Rs1, rs1),
            range_fault(Field::Imm, 2048, imm),
        ),
        Instr::Branch {
            op: _,
            rs1,
            rs2,
            offset,
        } => first(
            registers(Field::Rs1, rs1, Field::Rs2, rs2),
            even_range_fault(Field::Offset, 4096, offset),
        ),
        Instr::Load {
            op: _,
            rd,
            rs1,
            imm,
        } => first(
            registers(Field::Rd, rd, Field::Rs1, rs1),
            range_fault(Field::Imm, 2048, imm),
        ),
        Instr::Store {
            op: _,
            rs1,
            rs2,
            imm,
        } => first(
            registers(Field::Rs1, rs1, Field::Rs2, rs2),
            range_fault(Field::Imm, 2048, imm),
        ),
        Instr::Imm {
            op: _,
            rd,
            rs1,
            imm,
        } => first(
            registers(Field::Rd, rd, Field::Rs1, rs1),
            range_fault(Field::Imm, 2048, imm),
        ),
        Instr::Shift {
            op,
            rd,
            rs1,
            amount,
        } => first(
            registers(Field::Rd, rd, Field::Rs1, rs1),
            below(
                Field::Amount,
                u32::from(amount_bound(op)),
                u32::from(amount),
            ),
        ),
        Instr::Reg {
            op: _,
            rd,
            rs1,
            rs2,
        } => first(
            registers(Field::Rd, rd, Field::Rs1, rs1),
            register(Field::Rs2, rs2),
        ),
        Instr::Fence { rd, rs1, bits } => first(
            registers(Field::Rd, rd, Field::Rs1, rs1),
            below(Field::Bits, 4096, u32::from(bits)),
        ),
        Instr::Ecall
        | Instr::Ebreak
        | Instr::PersistBarrier
        | Instr::NewStrand
        | Instr::JoinStrand => None,
    }
}

impl Instr {
    /// Whether each field is in its range. The fault names the first field, in the order of the variant, that is
    /// outside its range, and its value.
    pub fn check(&self) -> Result<(), FieldFault>
        ensures fault { MatchResult result (λ _. fault_of self.now ≡ None) (λ f. fault_of self.now ≡ Some f) }
        ensures valid { IsOk result ↔ IsValid self.now }
    {
        match fault(self) {
            None => Ok(()),
            Some(fault) => Err(fault),
        }
    }
}
