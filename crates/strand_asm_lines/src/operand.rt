ghost use Rattle.std.specs.Prelude.{◌≡◌, IsTrue};
ghost use Rattle.std.specs.Option.{option_map, ok_or};
ghost use Rattle.strand_base.specs.Text.{words_of};
ghost use Rattle.strand_asm_lines.specs.Token.{name_of, register_of, number_of};
ghost use Rattle.strand_asm_lines.specs.Line.{in_word, memory_of, operand_of, space_of, GivesLine};

use crate::bytes::lone_word;
use crate::table::Due;
use crate::token::{bracketed, number, offset, register};
use crate::{LineError, LineFault, LineKind, Name, Operand};
use std::alloc::Global;
use strand_base::{MOST_DATA, is_name};

fn register_in(text: &[u8]) -> Option<u8>
    ensures { result ≡ in_word register_of text.now }
{
    register(lone_word(text)?)
}

pub(crate) fn number_in(text: &[u8]) -> Option<i128>
    ensures { result ≡ in_word number_of text.now }
{
    number(lone_word(text)?)
}

fn space(text: &[u8]) -> Option<u32>
    ensures { result ≡ space_of text.now }
{
    let count = number(text)?;
    if 0 <= count && count <= i128::from(MOST_DATA) {
        Some(count as u32)
    } else {
        None
    }
}

/// How many words `.space` makes, from 0 to 262,144.
pub(crate) fn space_in(text: &[u8]) -> Option<u32>
    ensures { result ≡ in_word space_of text.now }
{
    space(lone_word(text)?)
}

#[tactic(auto, unfolding(crate::specs::Line::memory_of))]
fn memory_in(text: &[u8]) -> Result<Operand, LineKind>
    ensures { result ≡ memory_of text.now }
{
    let word = lone_word(text).ok_or(LineKind::BadToken)?;
    let (before, inside) = bracketed(word).ok_or(LineKind::BadToken)?;
    let offset = offset(before).ok_or(LineKind::BadNumber)?;
    let base = register(inside).ok_or(LineKind::BadRegister)?;
    Ok(Operand::Mem { offset, base })
}

/// The error of a line.
pub(crate) fn fault(line: u32, kind: LineKind) -> LineError
    ensures { result ≡ LineError.Fault (record { line = line; kind = kind }) }
{
    LineError::Fault(LineFault { line, kind })
}

fn label(alloc: Global, line: u32, word: &[u8], kind: LineKind) -> Result<Operand, LineError>
    ensures { GivesLine line result (ok_or (option_map (λ name. Operand.Label name) (name_of word.now)) kind) }
{
    if !is_name(word) {
        return Err(fault(line, kind));
    }
    match Name::new(alloc, word) {
        Ok(name) => Ok(Operand::Label(name)),
        Err(_) => Err(LineError::OutOfMemory),
    }
}

fn target_in(alloc: Global, line: u32, text: &[u8]) -> Result<Operand, LineError>
    ensures { GivesLine line result (operand_of Due.Target text.now) }
{
    let Some(word) = lone_word(text) else {
        return Err(fault(line, LineKind::BadNumber));
    };
    match number(word) {
        Some(n) => Ok(Operand::Num(n)),
        None => label(alloc, line, word, LineKind::BadNumber),
    }
}

fn label_in(alloc: Global, line: u32, text: &[u8]) -> Result<Operand, LineError>
    ensures { GivesLine line result (operand_of Due.Label text.now) }
{
    match lone_word(text) {
        Some(word) => label(alloc, line, word, LineKind::BadToken),
        None => Err(fault(line, LineKind::BadToken)),
    }
}

/// The operand that a text is, by what is due at its place.
pub(crate) fn operand(alloc: Global, line: u32, due: Due, text: &[u8]) -> Result<Operand, LineError>
    ensures { GivesLine line result (operand_of due text.now) }
{
    match due {
        Due::Nothing => Ok(Operand::Absent),
        Due::Register => match register_in(text) {
            Some(n) => Ok(Operand::Reg(n)),
            None => Err(fault(line, LineKind::BadRegister)),
        },
        Due::Number => match number_in(text) {
            Some(n) => Ok(Operand::Num(n)),
            None => Err(fault(line, LineKind::BadNumber)),
        },
        Due::Target => target_in(alloc, line, text),
        Due::Label => label_in(alloc, line, text),
        Due::Memory => match memory_in(text) {
            Ok(operand) => Ok(operand),
            Err(kind) => Err(fault(line, kind)),
        },
    }
}
