ghost use Rattle.std.specs.Prelude.{◌≡◌, ◌++◌, ◌∷◌, [], ◌==◌, not, position, Some, None, codes, decimal, if◌then◌else◌};
ghost use Rattle.std.specs.List.{position_or_len};
ghost use Rattle.strand_base.specs.Puts.{Puts};
ghost use Rattle.strand_isa.specs.Print.{Prints, instr_text, one, part_text, short_hex, three, two};
ghost use Rattle.strand_isa.specs.Word.{IsValid, instr_word};

use crate::encoding::encode;
use crate::instr::Instr;
use crate::ops::{branch_row, imm_row, load_row, reg_row, shift_row, store_row, upper_row};
use itoa::Buffer;
use strand_base::{OutOfMemory, hex_digits, print_decimal, put};

/// An operand: a register, the field of an upper immediate, a number, or a place in memory.
#[derive(Clone, Copy)]
enum Part {
    Register(u8),
    Upper(u32),
    Number(i32),
    Memory(i32, u8),
}

fn put_decimal(into: &mut Vec<u8>, n: u8) -> Result<(), OutOfMemory>
    ensures { Puts result (decimal n) into.old.items into.new.items }
{
    print_decimal(u64::from(n), into)
}

fn put_register(into: &mut Vec<u8>, n: u8) -> Result<(), OutOfMemory>
    ensures { Puts result (part_text (Part.Register n)) into.old.items into.new.items }
{
    put(into, b"x")?;
    put_decimal(into, n)
}

fn put_number(into: &mut Vec<u8>, n: i32) -> Result<(), OutOfMemory>
    ensures { Puts result (part_text (Part.Number n)) into.old.items into.new.items }
{
    let mut buffer = Buffer::new();
    put(into, buffer.format(n).as_bytes())
}

fn filled_at(digits: &[u8]) -> Option<usize>
    ensures { result ≡ position (λ d. not (d == 48)) digits.now }
{
    digits.iter().position(|d| *d != b'0')
}

fn zero_count(digits: &[u8]) -> usize
    ensures { result ≡ position_or_len (λ d. not (d == 48)) digits.now }
{
    match filled_at(digits) {
        Some(at) => at,
        None => digits.len(),
    }
}

#[tactic(auto, unfolding(crate::specs::Print::short_hex))]
fn put_short_hex(into: &mut Vec<u8>, n: u32) -> Result<(), OutOfMemory>
    ensures { Puts result (short_hex n) into.old.items into.new.items }
{
    let digits = hex_digits(u64::from(n));
    let zeros = zero_count(&digits).min(15);
    put(into, &digits[zeros..])
}

fn put_field(into: &mut Vec<u8>, n: u32) -> Result<(), OutOfMemory>
    ensures { Puts result (part_text (Part.Upper n)) into.old.items into.new.items }
{
    put(into, b"0x")?;
    put_short_hex(into, n)
}

fn put_closed(into: &mut Vec<u8>, n: u8) -> Result<(), OutOfMemory>
    ensures { Puts result (decimal n ++ 41 ∷ []) into.old.items into.new.items }
{
    put_decimal(into, n)?;
    put(into, b")")
}

fn put_base(into: &mut Vec<u8>, n: u8) -> Result<(), OutOfMemory>
    ensures { Puts result (40 ∷ 120 ∷ (decimal n ++ 41 ∷ [])) into.old.items into.new.items }
{
    put(into, b"(x")?;
    put_closed(into, n)
}

fn put_memory(into: &mut Vec<u8>, offset: i32, base: u8) -> Result<(), OutOfMemory>
    ensures { Puts result (part_text (Part.Memory offset base)) into.old.items into.new.items }
{
    put_number(into, offset)?;
    put_base(into, base)
}

fn put_part(into: &mut Vec<u8>, part: Part) -> Result<(), OutOfMemory>
    ensures { Puts result (part_text part) into.old.items into.new.items }
{
    match part {
        Part::Register(n) => put_register(into, n),
        Part::Upper(n) => put_field(into, n),
        Part::Number(n) => put_number(into, n),
        Part::Memory(offset, base) => put_memory(into, offset, base),
    }
}

fn put_behind(into: &mut Vec<u8>, front: &[u8], part: Part) -> Result<(), OutOfMemory>
    ensures { Puts result (front.now ++ part_text part) into.old.items into.new.items }
{
    put(into, front)?;
    put_part(into, part)
}

fn put_name(into: &mut Vec<u8>, name: &str) -> Result<(), OutOfMemory>
    ensures { Puts result name.now into.old.items into.new.items }
{
    put(into, name.as_bytes())
}

fn put_one(into: &mut Vec<u8>, name: &str, a: Part) -> Result<(), OutOfMemory>
    ensures { Puts result (one name.now (part_text a)) into.old.items into.new.items }
{
    put_name(into, name)?;
    put_behind(into, b" ", a)
}

fn put_two(into: &mut Vec<u8>, name: &str, a: Part, b: Part) -> Result<(), OutOfMemory>
    ensures { Puts result (two name.now (part_text a) (part_text b)) into.old.items into.new.items }
{
    put_one(into, name, a)?;
    put_behind(into, b", ", b)
}

fn put_three(into: &mut Vec<u8>, name: &str, a: Part, b: Part, c: Part) -> Result<(), OutOfMemory>
    ensures { Puts result (three name.now (part_text a) (part_text b) (part_text c)) into.old.items into.new.items }
{
    put_two(into, name, a, b)?;
    put_behind(into, b", ", c)
}

fn print_two(into: &mut Vec<u8>, name: &str, a: Part, b: Part) -> Result<bool, OutOfMemory>
    ensures { Prints result (Some (two name.now (part_text a) (part_text b))) into.old.items into.new.items }
{
    put_two(into, name, a, b)?;
    Ok(true)
}

fn print_three(
    into: &mut Vec<u8>,
    name: &str,
    a: Part,
    b: Part,
    c: Part,
) -> Result<bool, OutOfMemory>
    ensures { Prints result (Some (three name.now (part_text a) (part_text b) (part_text c))) into.old.items into.new.items }
{
    put_three(into, name, a, b, c)?;
    Ok(true)
}

fn print_word(into: &mut Vec<u8>, name: &str) -> Result<bool, OutOfMemory>
    ensures { Prints result (Some name.now) into.old.items into.new.items }
{
    put(into, name.as_bytes())?;
    Ok(true)
}

fn print_fence(into: &mut Vec<u8>, i: &Instr) -> Result<bool, OutOfMemory>
    requires { IsValid i.now }
    ensures { Prints result (if instr_word i.now == 0x0ff0000f then Some (codes "fence") else None)
        into.old.items into.new.items }
{
    if encode(i) == 0x0ff0000f {
        print_word(into, "fence")
    } else {
        Ok(false)
    }
}

/// Appends the text of an instruction and answers true, or answers false and appends nothing exactly where it
/// has none: for a fence whose word isn't 0x0ff0000f. Where memory ran out, a front of the text is appended.
#[tactic(auto, unfolding(crate::specs::Print::instr_text))]
pub fn print_instr(i: &Instr, into: &mut Vec<u8>) -> Result<bool, OutOfMemory>
    requires { IsValid i.now }
    ensures { Prints result (instr_text i.now) into.old.items into.new.items }
{
    match *i {
        Instr::Upper { op, rd, imm } => {
            print_two(into, upper_row(op).0, Part::Register(rd), Part::Upper(imm))
        }
        Instr::Jal { rd, offset } => {
            print_two(into, "jal", Part::Register(rd), Part::Number(offset))
        }
        Instr::Jalr { rd, rs1, imm } => {
            print_two(into, "jalr", Part::Register(rd), Part::Memory(imm, rs1))
        }
        Instr::Branch {
            op,
            rs1,
            rs2,
            offset,
        } => {
            let (a, b) = (Part::Register(rs1), Part::Register(rs2));
            print_three(into, branch_row(op).0, a, b, Part::Number(offset))
        }
        Instr::Load { op, rd, rs1, imm } => {
            print_two(
                into,
                load_row(op).0,
                Part::Register(rd),
                Part::Memory(imm, rs1),
            )
        }
        Instr::Store { op, rs1, rs2, imm } => {
            print_two(
                into,
                store_row(op).0,
                Part::Register(rs2),
                Part::Memory(imm, rs1),
            )
        }
        Instr::Imm { op, rd, rs1, imm } => {
            let (a, b) = (Part::Register(rd), Part::Register(rs1));
            print_three(into, imm_row(op).0, a, b, Part::Number(imm))
        }
        Instr::Shift {
            op,
            rd,
            rs1,
            amount,
        } => {
            let (a, b) = (Part::Register(rd), Part::Register(rs1));
            print_three(into, shift_row(op).0, a, b, Part::Number(i32::from(amount)))
        }
        Instr::Reg { op, rd, rs1, rs2 } => {
            let (a, b) = (Part::Register(rd), Part::Register(rs1));
            print_three(into, reg_row(op).0, a, b, Part::Register(rs2))
        }
        Instr::Fence { .. } => print_fence(into, i),
        Instr::Ecall => print_word(into, "ecall"),
        Instr::Ebreak => print_word(into, "ebreak"),
        Instr::PersistBarrier => print_word(into, "persistbarrier"),
        Instr::NewStrand => print_word(into, "newstrand"),
        Instr::JoinStrand => print_word(into, "joinstrand"),
    }
}
