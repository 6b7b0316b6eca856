ghost use Rattle.std.specs.Prelude.{◌≡◌, ◌*◌, ◌<◌, ◌≤◌, ◌++◌, map, pos, OnOk, IfOk};
ghost use Rattle.strand_isa.specs.Word.{IsValid, instr_word};
ghost use Rattle.strand_gen.specs.Draws.{draw, draw_list, initial_state};
ghost use Rattle.strand_gen.specs.Program.{store, load, strand_change, instruction_by, instruction, core_program, program, code_of, generated_image};

use crate::draws::Draws;
use std::alloc::Global;
use strand_base::OutOfMemory;
use strand_image::Image;
use strand_isa::{ImmOp, Instr, LoadOp, StoreOp, UpperOp, encode};

/// The drawn instructions of a core.
const DRAWN: u32 = 63;

/// The offset of a drawn word, in bytes.
fn offset(draws: &mut Draws, words: u32) -> i32
    requires some { 0 < words }
    requires few { words ≤ 64 }
    ensures state { draws.new.state ≡ (draw words draws.old.state).1 }
    ensures value { result ≡ pos (8 * (draw words draws.old.state).0) }
    ensures below { (draw words draws.old.state).0 < words }
{
    (8 * draws.draw(words)) as i32
}

/// `sd x1` to one of so many words behind a base register.
fn store(draws: &mut Draws, base: u8, words: u32) -> Instr
    requires some { 0 < words }
    requires few { words ≤ 64 }
    requires register { base < 32 }
    ensures drawn { store base words draws.old.state ≡ (result, draws.new.state) }
    ensures valid { IsValid result }
{
    Instr::Store {
        op: StoreOp::Sd,
        rs1: base,
        rs2: 1,
        imm: offset(draws, words),
    }
}

/// `ld x4` from one of so many words behind a base register.
fn load(draws: &mut Draws, base: u8, words: u32) -> Instr
    requires some { 0 < words }
    requires few { words ≤ 64 }
    requires register { base < 32 }
    ensures drawn { load base words draws.old.state ≡ (result, draws.new.state) }
    ensures valid { IsValid result }
{
    Instr::Load {
        op: LoadOp::Ld,
        rd: 4,
        rs1: base,
        imm: offset(draws, words),
    }
}

/// A join once in four times, else a new strand.
fn strand_change(draws: &mut Draws) -> Instr
    ensures drawn { strand_change draws.old.state ≡ (result, draws.new.state) }
    ensures valid { IsValid result }
{
    if draws.draw(4) == 0 {
        Instr::JoinStrand
    } else {
        Instr::NewStrand
    }
}

/// The instruction by a number below 10.
#[tactic(auto, unfolding(crate::specs::Program::instruction_by))]
fn instruction_by(k: u32, draws: &mut Draws) -> Instr
    ensures drawn { instruction_by k draws.old.state ≡ (result, draws.new.state) }
    ensures valid { IsValid result }
{
    match k {
        0..=3 => store(draws, 2, 64),
        4 => Instr::Imm {
            op: ImmOp::Addi,
            rd: 1,
            rs1: 1,
            imm: 1,
        },
        5 => load(draws, 2, 64),
        6 => store(draws, 3, 16),
        7 => load(draws, 3, 16),
        8 => Instr::PersistBarrier,
        _ => strand_change(draws),
    }
}

/// A drawn instruction.
fn instruction(draws: &mut Draws) -> Instr
    ensures drawn { instruction draws.old.state ≡ (result, draws.new.state) }
    ensures valid { IsValid result }
{
    let k = draws.draw(10);
    instruction_by(k, draws)
}

/// Puts the words of a core's drawn instructions at the end.
fn push_drawn(code: &mut Vec<u32>, draws: &mut Draws) -> Result<(), OutOfMemory>
    ensures words { OnOk result (code.new.items
        ≡ code.old.items ++ map instr_word (draw_list 63 instruction draws.old.state).0) }
    ensures state { OnOk result (draws.new.state ≡ (draw_list 63 instruction draws.old.state).1) }
{
    for _ in 0..DRAWN {
        code.push(encode(&instruction(draws)))?;
    }
    Ok(())
}

/// Puts the words of a core at the end.
fn push_core(code: &mut Vec<u32>, draws: &mut Draws) -> Result<(), OutOfMemory>
    ensures words { OnOk result (code.new.items
        ≡ code.old.items ++ map instr_word (core_program draws.old.state).0) }
    ensures state { OnOk result (draws.new.state ≡ (core_program draws.old.state).1) }
{
    let persistent = Instr::Upper {
        op: UpperOp::Lui,
        rd: 2,
        imm: 0x40000,
    };
    let volatile = Instr::Upper {
        op: UpperOp::Lui,
        rd: 3,
        imm: 0x20000,
    };
    let again = Instr::Jal {
        rd: 0,
        offset: -252,
    };
    code.push(encode(&persistent))?;
    code.push(encode(&volatile))?;
    push_drawn(code, draws)?;
    code.push(encode(&again))?;
    Ok(())
}

/// The words of both cores.
#[tactic(auto, unfolding(crate::specs::Program::code_of))]
fn code_words(alloc: Global, seed: u64) -> Result<Vec<u32>, OutOfMemory>
    ensures { IfOk result (λ code. code.items ≡ code_of seed) }
{
    let mut draws = Draws::of_seed(seed);
    let mut code = Vec::new(alloc);
    push_core(&mut code, &mut draws)?;
    push_core(&mut code, &mut draws)?;
    Ok(code)
}

/// The image of the drawn program, whose data is zeros.
#[tactic(auto, using(crate::proofs::GeneratedImage::image_made))]
pub(crate) fn generated_image(alloc: Global, seed: u64) -> Result<Image, OutOfMemory>
    ensures { IfOk result (λ image. image ≡ generated_image seed) }
{
    let entries = vec![in alloc; 0, 66]?;
    let code = code_words(alloc, seed)?;
    let volatile = vec![in alloc; 0; 16]?;
    let persistent = vec![in alloc; 0; 64]?;
    Ok(Image::make(entries, code, volatile, persistent, Vec::new(alloc)).unwrap())
}
