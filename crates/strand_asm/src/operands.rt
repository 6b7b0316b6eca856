ghost use Rattle.std.specs.Prelude.{◌≡◌, ◌*◌, ◌<◌, ◌≤◌, IfSome};
ghost use Rattle.strand_asm_lines.specs.Line.{HasOperandRegister};
ghost use Rattle.strand_asm.specs.Operands.{register, number, natural_below, signed, even, wrapped};

use strand_asm_lines::Operand;

/// The register of an operand, or the base of a place in memory.
pub(crate) fn register(operand: &Operand) -> u8
    requires { HasOperandRegister operand.now }
    ensures gives { result ≡ register operand.now }
    ensures small { result < 32 }
{
    match operand {
        Operand::Reg(n) => *n,
        Operand::Mem { base, .. } => *base,
        Operand::Absent | Operand::Num(_) | Operand::Label(_) => 0,
    }
}

/// The number of an operand, or the offset of a place in memory.
pub(crate) fn number(operand: &Operand) -> i128
    ensures { result ≡ number operand.now }
{
    match operand {
        Operand::Num(z) => *z,
        Operand::Mem { offset, .. } => *offset,
        Operand::Absent | Operand::Reg(_) | Operand::Label(_) => 0,
    }
}

/// A number below a bound.
pub(crate) fn below(bound: u32, z: i128) -> Option<u32>
    ensures { result ≡ natural_below bound z }
{
    if 0 <= z && z < i128::from(bound) {
        Some(z as u32)
    } else {
        None
    }
}

/// A number from `-half` to `half - 1`.
pub(crate) fn signed(half: u32, z: i128) -> Option<i32>
    requires { half ≤ 2147483648 }
    ensures { result ≡ signed half z }
{
    if -i128::from(half) <= z && z < i128::from(half) {
        Some(z as i32)
    } else {
        None
    }
}

/// An even number from `-half` to `half - 2`.
pub(crate) fn even(half: u32, z: i128) -> Option<i32>
    requires { half ≤ 2147483648 }
    ensures { result ≡ even half z }
{
    if -i128::from(half) <= z && z < i128::from(half) && z % 2 == 0 {
        Some(z as i32)
    } else {
        None
    }
}

/// A number from `-half` to `2 * half - 1`, modulo `2 * half`.
pub(crate) fn wrapped(half: u64, z: i128) -> Option<u64>
    requires { half ≤ 9223372036854775808 }
    ensures gives { result ≡ wrapped half z }
    ensures small { IfSome result (λ n. n < 2 * half) }
{
    let half = i128::from(half);
    if 0 <= z && z < 2 * half {
        Some(z as u64)
    } else if z < 0 && -half <= z {
        Some((z + 2 * half) as u64)
    } else {
        None
    }
}
