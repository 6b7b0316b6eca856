ghost use Rattle.std.specs.Prelude.{◌≡◌, ℕ, ◌+◌, ◌*◌, ◌/◌, ◌%◌, ◌<◌, IfSome, Some};
ghost use Rattle.strand_isa.specs.Decode.{branch_at, fence_at, imm_at, immediate_at, instr_of, j_immediate, jalr_at, load_at, rd_of, reg_at, shift_at, signed_of, store_at, upper_at};
ghost use Rattle.strand_isa.specs.Word.{IsValid, IsInRange, field_of, instr_word};
ghost use Rattle.strand_isa.specs.declared.instr.Instr.TheVariants.{Jal};

use crate::finding::{
    branch_with, imm_with, load_with, reg_with, shift_with, store_with, upper_with,
};
use crate::instr::Instr;
use crate::opcodes::{
    AUIPC, BRANCH, CUSTOM_0, JAL, JALR, LOAD, LUI, MISC_MEM, OP, OP_32, OP_IMM, OP_IMM_32, STORE,
    SYSTEM,
};
use crate::ops::amount_bound;

/// The signed number of a field of values below `2 * half`.
fn signed(half: u32, field: u32) -> i32
    requires half { half < 2000000 }
    requires small { field < 2 * half }
    ensures value { result ≡ signed_of half field }
    ensures within { IsInRange half result }
    ensures field { field_of half result ≡ field }
{
    if field < half {
        field as i32
    } else {
        field as i32 - (2 * half) as i32
    }
}

fn register(word: u32, place: u32) -> u8
    requires { 0 < place }
    ensures value { result ≡ word / place % 32 }
    ensures small { result < 32 }
{
    (word / place % 32) as u8
}

#[tactic(auto, unfolding(crate::specs::Decode::upper_at))]
fn decode_upper(word: u32) -> Option<Instr>
    ensures value { result ≡ upper_at word }
    ensures valid { IfSome result IsValid }
    ensures word { IfSome result (λ i. instr_word i ≡ word) }
{
    let op = upper_with(word % 128)?;
    let rd = register(word, 128);
    Some(Instr::Upper {
        op,
        rd,
        imm: word / 4096,
    })
}

fn decode_jal(word: u32) -> Option<Instr>
    requires { word % 128 ≡ JAL }
    ensures value { result ≡ Some (Jal (rd_of word) (j_immediate word)) }
    ensures valid { IfSome result IsValid }
    ensures word { IfSome result (λ i. instr_word i ≡ word) }
{
    let rd = register(word, 128);
    let field = word / 4096 % 256 * 4096
        + word / 1048576 % 2 * 2048
        + word / 2097152 % 1024 * 2
        + word / 2147483648 * 1048576;
    let offset = signed(1048576, field);
    Some(Instr::Jal { rd, offset })
}

#[tactic(auto, unfolding(crate::specs::Decode::jalr_at))]
fn decode_jalr(word: u32) -> Option<Instr>
    requires { word % 128 ≡ JALR }
    ensures value { result ≡ jalr_at word }
    ensures valid { IfSome result IsValid }
    ensures word { IfSome result (λ i. instr_word i ≡ word) }
{
    if word / 4096 % 8 != 0 {
        return None;
    }
    let rd = register(word, 128);
    let rs1 = register(word, 32768);
    let imm = signed(2048, word / 1048576);
    Some(Instr::Jalr { rd, rs1, imm })
}

#[tactic(auto, unfolding(crate::specs::Decode::branch_at))]
fn decode_branch(word: u32) -> Option<Instr>
    ensures value { result ≡ branch_at word }
    ensures valid { IfSome result IsValid }
    ensures word { IfSome result (λ i. instr_word i ≡ word) }
{
    let op = branch_with(word % 128, word / 4096 % 8)?;
    let rs1 = register(word, 32768);
    let rs2 = register(word, 1048576);
    let field = word / 128 % 2 * 2048
        + word / 256 % 16 * 2
        + word / 33554432 % 64 * 32
        + word / 2147483648 * 4096;
    let offset = signed(4096, field);
    Some(Instr::Branch {
        op,
        rs1,
        rs2,
        offset,
    })
}

#[tactic(auto, unfolding(crate::specs::Decode::load_at))]
fn decode_load(word: u32) -> Option<Instr>
    ensures value { result ≡ load_at word }
    ensures valid { IfSome result IsValid }
    ensures word { IfSome result (λ i. instr_word i ≡ word) }
{
    let op = load_with(word % 128, word / 4096 % 8)?;
    let rd = register(word, 128);
    let rs1 = register(word, 32768);
    let imm = signed(2048, word / 1048576);
    Some(Instr::Load { op, rd, rs1, imm })
}

#[tactic(auto, unfolding(crate::specs::Decode::store_at))]
fn decode_store(word: u32) -> Option<Instr>
    ensures value { result ≡ store_at word }
    ensures valid { IfSome result IsValid }
    ensures word { IfSome result (λ i. instr_word i ≡ word) }
{
    let op = store_with(word % 128, word / 4096 % 8)?;
    let rs1 = register(word, 32768);
    let rs2 = register(word, 1048576);
    let imm = signed(2048, word / 128 % 32 + word / 33554432 * 32);
    Some(Instr::Store { op, rs1, rs2, imm })
}

#[tactic(auto, unfolding(crate::specs::Decode::imm_at))]
fn decode_imm(word: u32) -> Option<Instr>
    ensures value { result ≡ imm_at word }
    ensures valid { IfSome result IsValid }
    ensures word { IfSome result (λ i. instr_word i ≡ word) }
{
    let op = imm_with(word % 128, word / 4096 % 8)?;
    let rd = register(word, 128);
    let rs1 = register(word, 32768);
    let imm = signed(2048, word / 1048576);
    Some(Instr::Imm { op, rd, rs1, imm })
}

#[tactic(auto, unfolding(crate::specs::Decode::shift_at))]
fn decode_shift(word: u32) -> Option<Instr>
    ensures value { result ≡ shift_at word }
    ensures valid { IfSome result IsValid }
    ensures word { IfSome result (λ i. instr_word i ≡ word) }
{
    let op = shift_with(word % 128, word / 4096 % 8, word / 67108864)?;
    let amount = (word / 1048576 % 64) as u8;
    if amount >= amount_bound(op) {
        return None;
    }
    let rd = register(word, 128);
    let rs1 = register(word, 32768);
    Some(Instr::Shift {
        op,
        rd,
        rs1,
        amount,
    })
}

#[tactic(auto, unfolding(crate::specs::Decode::reg_at))]
fn decode_reg(word: u32) -> Option<Instr>
    ensures value { result ≡ reg_at word }
    ensures valid { IfSome result IsValid }
    ensures word { IfSome result (λ i. instr_word i ≡ word) }
{
    let op = reg_with(word % 128, word / 4096 % 8, word / 33554432)?;
    let rd = register(word, 128);
    let rs1 = register(word, 32768);
    let rs2 = register(word, 1048576);
    Some(Instr::Reg { op, rd, rs1, rs2 })
}

#[tactic(auto, unfolding(crate::specs::Decode::fence_at))]
fn decode_fence(word: u32) -> Option<Instr>
    requires { word % 128 ≡ MISC_MEM }
    ensures value { result ≡ fence_at word }
    ensures valid { IfSome result IsValid }
    ensures word { IfSome result (λ i. instr_word i ≡ word) }
{
    if word / 4096 % 8 != 0 {
        return None;
    }
    let rd = register(word, 128);
    let rs1 = register(word, 32768);
    let bits = (word / 1048576) as u16;
    Some(Instr::Fence { rd, rs1, bits })
}

/// An operation with an immediate, or a shift by a constant.
fn decode_immediate(word: u32) -> Option<Instr>
    ensures value { result ≡ immediate_at word }
    ensures valid { IfSome result IsValid }
    ensures word { IfSome result (λ i. instr_word i ≡ word) }
{
    let funct3 = word / 4096 % 8;
    if funct3 == 1 || funct3 == 5 {
        decode_shift(word)
    } else {
        decode_imm(word)
    }
}

/// The instruction of a word, by its opcode.
#[tactic(auto, unfolding(crate::specs::Decode::instr_of))]
fn read(word: u32) -> Option<Instr>
    ensures value { result ≡ instr_of word }
    ensures valid { IfSome result IsValid }
    ensures word { IfSome result (λ i. instr_word i ≡ word) }
{
    match word % 128 {
        LUI | AUIPC => decode_upper(word),
        JAL => decode_jal(word),
        JALR => decode_jalr(word),
        BRANCH => decode_branch(word),
        LOAD => decode_load(word),
        STORE => decode_store(word),
        OP_IMM | OP_IMM_32 => decode_immediate(word),
        OP | OP_32 => decode_reg(word),
        MISC_MEM => decode_fence(word),
        SYSTEM => match word {
            0x00000073 => Some(Instr::Ecall),
            0x00100073 => Some(Instr::Ebreak),
            _ => None,
        },
        CUSTOM_0 => match word {
            0x0000000b => Some(Instr::PersistBarrier),
            0x0000100b => Some(Instr::NewStrand),
            0x0000200b => Some(Instr::JoinStrand),
            _ => None,
        },
        _ => None,
    }
}

/// The instruction that a word stands for, or `None` exactly where no instruction has the word.
pub fn decode(word: u32) -> Option<Instr>
    ensures value { result ≡ instr_of word }
    ensures valid { IfSome result IsValid }
    ensures word { IfSome result (λ i. instr_word i ≡ word) }
    ensures every { (i : Instr) → IsValid i → instr_word i ≡ word → result ≡ Some i }
{
    read(word)
}
