ghost use Rattle.std.specs.Prelude.{◌≡◌, ◌<◌, ◌^◌, IfOk};
ghost use Rattle.strand_asm_lines.specs.Line.{HasOperandRegister};
ghost use Rattle.strand_asm.specs.Operands.{number};
ghost use Rattle.strand_asm.specs.Encode.{AreValid, branch_coded, coded, imm_coded, jalr_coded, jump, la_coded, li_coded, load_coded, move_coded, one_coded, pair, pattern_coded, reg_coded, shift_coded, store_coded, upper_coded};
ghost use Rattle.strand_asm.specs.declared.fault.AsmFault.{AsmFault};

use crate::AsmFault;
use crate::coded::Coded;
use crate::labels::Labels;
use crate::operands::{below, even, number, register, signed};
use crate::place::Site;
use crate::targets::{address_of, offset_to};
use strand_asm_lines::{Mnemonic, Operand, Pattern};
use strand_isa::{BranchOp, ImmOp, Instr, LoadOp, RegOp, ShiftOp, StoreOp, UpperOp, amount_bound};

const FENCE: Instr = Instr::Fence {
    rd: 0,
    rs1: 0,
    bits: 0x0ff,
};

const NOP: Instr = Instr::Imm {
    op: ImmOp::Addi,
    rd: 0,
    rs1: 0,
    imm: 0,
};

const RET: Instr = Instr::Jalr {
    rd: 0,
    rs1: 1,
    imm: 0,
};

fn one(line: u32, value: i128, instr: Option<Instr>) -> Result<Coded, AsmFault>
    ensures { result ≡ one_coded line value instr }
{
    match instr {
        Some(instr) => Ok(Coded::One(instr)),
        None => Err(AsmFault::Range { line, value }),
    }
}

fn pair(rd: u8, n: u128) -> Coded
    requires rd { rd < 32 }
    requires n { n < 2 ^ 100 }
    ensures gives { result ≡ pair rd n }
    ensures valid { AreValid result }
{
    let low = (n % 4096) as i32;
    let imm = if low < 2048 { low } else { low - 4096 };
    let upper = Instr::Upper {
        op: UpperOp::Lui,
        rd,
        imm: ((n + 2048) / 4096 % 1048576) as u32,
    };
    let op = ImmOp::Addiw;
    Coded::Two(
        upper,
        Instr::Imm {
            op,
            rd,
            rs1: rd,
            imm,
        },
    )
}

#[tactic(auto, unfolding(crate::specs::Encode::li_coded))]
fn li_coded(line: u32, rd: u8, z: i128) -> Result<Coded, AsmFault>
    requires { rd < 32 }
    ensures gives { result ≡ li_coded line rd z }
    ensures valid { IfOk result AreValid }
{
    if let Some(imm) = signed(2048, z) {
        let op = ImmOp::Addi;
        return Ok(Coded::One(Instr::Imm {
            op,
            rd,
            rs1: 0,
            imm,
        }));
    }
    if -2147483648 <= z && z < 2147483648 {
        let n = if z < 0 { z + 4294967296 } else { z };
        Ok(pair(rd, n as u128))
    } else {
        Err(AsmFault::Range { line, value: z })
    }
}

fn jump(labels: &Labels, site: Site, rd: u8, target: &Operand) -> Result<Coded, AsmFault>
    requires { rd < 32 }
    ensures gives { result ≡ jump labels.now site rd target.now }
    ensures valid { IfOk result AreValid }
{
    let z = offset_to(labels, site, target)?;
    let instr = even(1048576, z).map(|offset| Instr::Jal { rd, offset });
    one(site.line, z, instr)
}

fn upper_coded(line: u32, op: UpperOp, a: &Operand, b: &Operand) -> Result<Coded, AsmFault>
    requires { HasOperandRegister a.now }
    ensures gives { result ≡ upper_coded line op a.now b.now }
    ensures valid { IfOk result AreValid }
{
    let rd = register(a);
    let z = number(b);
    one(
        line,
        z,
        below(1048576, z).map(|imm| Instr::Upper { op, rd, imm }),
    )
}

fn jalr_coded(line: u32, a: &Operand, b: &Operand) -> Result<Coded, AsmFault>
    requires a { HasOperandRegister a.now }
    requires b { HasOperandRegister b.now }
    ensures gives { result ≡ jalr_coded line a.now b.now }
    ensures valid { IfOk result AreValid }
{
    let rd = register(a);
    let rs1 = register(b);
    let z = number(b);
    one(
        line,
        z,
        signed(2048, z).map(|imm| Instr::Jalr { rd, rs1, imm }),
    )
}

fn load_coded(line: u32, op: LoadOp, a: &Operand, b: &Operand) -> Result<Coded, AsmFault>
    requires a { HasOperandRegister a.now }
    requires b { HasOperandRegister b.now }
    ensures gives { result ≡ load_coded line op a.now b.now }
    ensures valid { IfOk result AreValid }
{
    let rd = register(a);
    let rs1 = register(b);
    let z = number(b);
    one(
        line,
        z,
        signed(2048, z).map(|imm| Instr::Load { op, rd, rs1, imm }),
    )
}

fn store_coded(line: u32, op: StoreOp, a: &Operand, b: &Operand) -> Result<Coded, AsmFault>
    requires a { HasOperandRegister a.now }
    requires b { HasOperandRegister b.now }
    ensures gives { result ≡ store_coded line op a.now b.now }
    ensures valid { IfOk result AreValid }
{
    let rs1 = register(b);
    let rs2 = register(a);
    let z = number(b);
    one(
        line,
        z,
        signed(2048, z).map(|imm| Instr::Store { op, rs1, rs2, imm }),
    )
}

fn imm_coded(line: u32, op: ImmOp, a: &Operand, b: &Operand, c: &Operand) -> Result<Coded, AsmFault>
    requires a { HasOperandRegister a.now }
    requires b { HasOperandRegister b.now }
    ensures gives { result ≡ imm_coded line op a.now b.now c.now }
    ensures valid { IfOk result AreValid }
{
    let rd = register(a);
    let rs1 = register(b);
    let z = number(c);
    one(
        line,
        z,
        signed(2048, z).map(|imm| Instr::Imm { op, rd, rs1, imm }),
    )
}

fn shift_coded(
    line: u32,
    op: ShiftOp,
    a: &Operand,
    b: &Operand,
    c: &Operand,
) -> Result<Coded, AsmFault>
    requires a { HasOperandRegister a.now }
    requires b { HasOperandRegister b.now }
    ensures gives { result ≡ shift_coded line op a.now b.now c.now }
    ensures valid { IfOk result AreValid }
{
    let rd = register(a);
    let rs1 = register(b);
    let z = number(c);
    let amount = below(u32::from(amount_bound(op)), z);
    one(
        line,
        z,
        amount.map(|amount| Instr::Shift {
            op,
            rd,
            rs1,
            amount: amount as u8,
        }),
    )
}

fn branch_coded(
    labels: &Labels,
    site: Site,
    op: BranchOp,
    a: &Operand,
    b: &Operand,
    c: &Operand,
) -> Result<Coded, AsmFault>
    requires a { HasOperandRegister a.now }
    requires b { HasOperandRegister b.now }
    ensures gives { result ≡ branch_coded labels.now site op a.now b.now c.now }
    ensures valid { IfOk result AreValid }
{
    let rs1 = register(a);
    let rs2 = register(b);
    let z = offset_to(labels, site, c)?;
    one(
        site.line,
        z,
        even(4096, z).map(|offset| Instr::Branch {
            op,
            rs1,
            rs2,
            offset,
        }),
    )
}

fn la_coded(labels: &Labels, line: u32, a: &Operand, b: &Operand) -> Result<Coded, AsmFault>
    requires { HasOperandRegister a.now }
    ensures gives { result ≡ la_coded labels.now line a.now b.now }
    ensures valid { IfOk result AreValid }
{
    let rd = register(a);
    Ok(pair(rd, address_of(labels, line, b)?))
}

fn reg_coded(op: RegOp, a: &Operand, b: &Operand, c: &Operand) -> Coded
    requires a { HasOperandRegister a.now }
    requires b { HasOperandRegister b.now }
    requires c { HasOperandRegister c.now }
    ensures gives { result ≡ reg_coded op a.now b.now c.now }
    ensures valid { AreValid result }
{
    let rd = register(a);
    let rs1 = register(b);
    let rs2 = register(c);
    Coded::One(Instr::Reg { op, rd, rs1, rs2 })
}

fn move_coded(a: &Operand, b: &Operand) -> Coded
    requires a { HasOperandRegister a.now }
    requires b { HasOperandRegister b.now }
    ensures gives { result ≡ move_coded a.now b.now }
    ensures valid { AreValid result }
{
    let op = ImmOp::Addi;
    Coded::One(Instr::Imm {
        op,
        rd: register(a),
        rs1: register(b),
        imm: 0,
    })
}

/// The instructions of a mnemonic, with the operands at its places.
#[tactic(auto, unfolding(crate::specs::Encode::coded))]
fn coded(
    labels: &Labels,
    site: Site,
    op: Mnemonic,
    a: &Operand,
    b: &Operand,
    c: &Operand,
) -> Result<Coded, AsmFault>
    requires a { HasOperandRegister a.now }
    requires b { HasOperandRegister b.now }
    requires c { HasOperandRegister c.now }
    ensures gives { result ≡ coded labels.now site op a.now b.now c.now }
    ensures valid { IfOk result AreValid }
{
    let line = site.line;
    match op {
        Mnemonic::Upper(op) => upper_coded(line, op, a, b),
        Mnemonic::Jal => jump(labels, site, register(a), b),
        Mnemonic::Jalr => jalr_coded(line, a, b),
        Mnemonic::Branch(op) => branch_coded(labels, site, op, a, b, c),
        Mnemonic::Load(op) => load_coded(line, op, a, b),
        Mnemonic::Store(op) => store_coded(line, op, a, b),
        Mnemonic::Imm(op) => imm_coded(line, op, a, b, c),
        Mnemonic::Shift(op) => shift_coded(line, op, a, b, c),
        Mnemonic::Reg(op) => Ok(reg_coded(op, a, b, c)),
        Mnemonic::Fence => Ok(Coded::One(FENCE)),
        Mnemonic::Ecall => Ok(Coded::One(Instr::Ecall)),
        Mnemonic::Ebreak => Ok(Coded::One(Instr::Ebreak)),
        Mnemonic::PersistBarrier => Ok(Coded::One(Instr::PersistBarrier)),
        Mnemonic::NewStrand => Ok(Coded::One(Instr::NewStrand)),
        Mnemonic::JoinStrand => Ok(Coded::One(Instr::JoinStrand)),
        Mnemonic::Nop => Ok(Coded::One(NOP)),
        Mnemonic::Ret => Ok(Coded::One(RET)),
        Mnemonic::Mv => Ok(move_coded(a, b)),
        Mnemonic::Li => li_coded(line, register(a), number(b)),
        Mnemonic::La => la_coded(labels, line, a, b),
        Mnemonic::J => jump(labels, site, 0, a),
    }
}

/// The instructions of a line of code.
#[tactic(auto, unfolding(crate::specs::Encode::pattern_coded))]
pub(crate) fn pattern_coded(
    labels: &Labels,
    site: Site,
    pattern: &Pattern,
) -> Result<Coded, AsmFault>
    requires first { HasOperandRegister pattern.now.first }
    requires second { HasOperandRegister pattern.now.second }
    requires third { HasOperandRegister pattern.now.third }
    ensures gives { result ≡ pattern_coded labels.now site pattern.now }
    ensures valid { IfOk result AreValid }
{
    coded(
        labels,
        site,
        pattern.op,
        &pattern.first,
        &pattern.second,
        &pattern.third,
    )
}
