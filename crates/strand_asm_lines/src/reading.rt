ghost use Rattle.std.specs.Prelude.{◌≡◌, IfOk, IfSome, IsTrue, OnOk};
ghost use Rattle.std.specs.Option.{option_map};
ghost use Rattle.strand_asm_lines.specs.Table.{form_of};
ghost use Rattle.strand_asm_lines.specs.Bytes.{pieces, operand_texts};
ghost use Rattle.strand_base.specs.Name.{is_label, is_name};
ghost use Rattle.strand_asm_lines.specs.Line.{operands_counted, head_of, instruction_of, directive_of, body_by, body_of, label_fits, labelled, line_parts, line_of, HasLabel, HasRegisters, GivesLine};

use crate::bytes::{
    after_blanks, are_plain, comma_count, cut, has_empty, operand_at, split_at_blank,
};
use crate::operand::{fault, number_in, operand, space_in};
use crate::table::{Due, due_count, form_of, mnemonic};
use crate::{Body, Line, LineError, LineKind, Mnemonic, Name, Pattern, Section};
use std::alloc::Global;
use strand_base::{MOST_LABEL, content, is_name, next_word};

/// What the first word of a line says.
#[derive(Clone, Copy)]
enum Head {
    Section(Section),
    Entry,
    Word,
    Space,
    Code(Mnemonic),
}

fn head_named(word: &[u8]) -> Option<Head>
    ensures { result ≡ head_of word.now }
{
    if word == b".code".as_slice() {
        Some(Head::Section(Section::Code))
    } else if word == b".volatile".as_slice() {
        Some(Head::Section(Section::Volatile))
    } else if word == b".persist".as_slice() {
        Some(Head::Section(Section::Persist))
    } else if word == b".entry".as_slice() {
        Some(Head::Entry)
    } else if word == b".word".as_slice() {
        Some(Head::Word)
    } else if word == b".space".as_slice() {
        Some(Head::Space)
    } else {
        mnemonic(word).map(Head::Code)
    }
}

#[tactic(auto, using(crate::proofs::Pieces::length_pieces))]
fn check_count(due: usize, rest: &[u8]) -> Result<(), LineKind>
    ensures { result ≡ operands_counted due (operand_texts rest.now) }
{
    if next_word(rest).is_none() {
        return if due == 0 {
            Ok(())
        } else {
            Err(LineKind::MissingOperand)
        };
    }
    let commas = comma_count(rest);
    if commas < due.saturating_sub(1) || has_empty(rest) {
        Err(LineKind::MissingOperand)
    } else if due <= commas {
        Err(LineKind::ExtraOperand)
    } else {
        Ok(())
    }
}

#[tactic(auto, unfolding(crate::specs::Line::instruction_of))]
fn instruction(alloc: Global, line: u32, op: Mnemonic, rest: &[u8]) -> Result<Body, LineError>
    ensures { GivesLine line result (instruction_of op (form_of op) rest.now) }
{
    let form = form_of(op);
    if let Err(kind) = check_count(due_count(form), rest) {
        return Err(fault(line, kind));
    }
    let first = operand(alloc, line, form.first, operand_at(rest, 0))?;
    let second = operand(alloc, line, form.second, operand_at(rest, 1))?;
    let third = operand(alloc, line, form.third, operand_at(rest, 2))?;
    Ok(Body::Code(Pattern {
        op,
        first,
        second,
        third,
    }))
}

#[tactic(auto, unfolding(crate::specs::Line::directive_of))]
fn section(line: u32, section: Section, rest: &[u8]) -> Result<Body, LineError>
    ensures { GivesLine line result (directive_of (Head.Section section) rest.now) }
{
    match check_count(0, rest) {
        Ok(()) => Ok(Body::Section(section)),
        Err(kind) => Err(fault(line, kind)),
    }
}

#[tactic(auto, unfolding(crate::specs::Line::directive_of))]
fn entry(alloc: Global, line: u32, rest: &[u8]) -> Result<Body, LineError>
    ensures { GivesLine line result (directive_of Head.Entry rest.now) }
{
    if let Err(kind) = check_count(1, rest) {
        return Err(fault(line, kind));
    }
    let target = operand(alloc, line, Due::Target, operand_at(rest, 0))?;
    Ok(Body::Entry(target))
}

#[tactic(auto, unfolding(crate::specs::Line::directive_of))]
fn word(line: u32, rest: &[u8]) -> Result<Body, LineError>
    ensures { GivesLine line result (directive_of Head.Word rest.now) }
{
    if let Err(kind) = check_count(1, rest) {
        return Err(fault(line, kind));
    }
    match number_in(operand_at(rest, 0)) {
        Some(number) => Ok(Body::Word(number)),
        None => Err(fault(line, LineKind::BadNumber)),
    }
}

#[tactic(auto, unfolding(crate::specs::Line::directive_of))]
fn space(line: u32, rest: &[u8]) -> Result<Body, LineError>
    ensures { GivesLine line result (directive_of Head.Space rest.now) }
{
    if let Err(kind) = check_count(1, rest) {
        return Err(fault(line, kind));
    }
    match space_in(operand_at(rest, 0)) {
        Some(number) => Ok(Body::Space(number)),
        None => Err(fault(line, LineKind::BadNumber)),
    }
}

#[tactic(auto, unfolding(crate::specs::Line::directive_of))]
fn directive(alloc: Global, line: u32, head: Head, rest: &[u8]) -> Result<Body, LineError>
    ensures { GivesLine line result (directive_of head rest.now) }
{
    match head {
        Head::Section(part) => section(line, part, rest),
        Head::Entry => entry(alloc, line, rest),
        Head::Word => word(line, rest),
        Head::Space => space(line, rest),
        Head::Code(op) => instruction(alloc, line, op, rest),
    }
}

#[tactic(auto, using(crate::proofs::LineParts::body_none, crate::proofs::LineParts::body_some))]
fn body(alloc: Global, line: u32, text: &[u8]) -> Result<Body, LineError>
    ensures { GivesLine line result (body_of text.now) }
{
    let (word, rest) = split_at_blank(after_blanks(text));
    if word.is_empty() {
        return Ok(Body::Empty);
    }
    match head_named(word) {
        Some(head) => directive(alloc, line, head, rest),
        None => Err(fault(line, LineKind::UnknownName)),
    }
}

fn labelled(text: &[u8]) -> Option<(Option<&[u8]>, &[u8])>
    ensures parts { option_map (λ x. (option_map (λ n. n.now) x.0, x.1.now)) result ≡ labelled (pieces 58 text.now) }
    ensures name { IfSome result (λ x. IfSome x.0 (λ n. IsTrue (is_name n.now))) }
{
    let Some((front, rest)) = cut(text, b':') else {
        return Some((None, text));
    };
    let name = after_blanks(front);
    match cut(rest, b':') {
        Some(_) => None,
        None => {
            if is_name(name) {
                Some((Some(name), rest))
            } else {
                None
            }
        }
    }
}

#[tactic(auto, unfolding(crate::specs::Line::line_parts))]
fn parts(text: &[u8]) -> Option<(Option<&[u8]>, &[u8])>
    ensures parts { option_map (λ x. (option_map (λ n. n.now) x.0, x.1.now)) result
        ≡ line_parts text.now }
    ensures name { IfSome result (λ x. IfSome x.0 (λ n. IsTrue (is_name n.now))) }
{
    if are_plain(text) {
        labelled(text)
    } else {
        None
    }
}

fn check_label(label: Option<&[u8]>) -> Result<(), LineKind>
    requires { IfSome label (λ n. IsTrue (is_name n.now)) }
    ensures gives { result ≡ label_fits (option_map (λ n. n.now) label.entry) }
    ensures label { OnOk result (IfSome label.entry (λ n. IsTrue (is_label n.now))) }
{
    match label {
        None => Ok(()),
        Some(name) => {
            if name.len() <= MOST_LABEL {
                Ok(())
            } else {
                Err(LineKind::LongName)
            }
        }
    }
}

/// The parts of a line of assembler text, by the grammar of docs/assembler.md. `line` is its number,
/// which a fault carries. It takes memory for names alone.
///
/// The fault is exactly the line's first: `BadToken`, `LongName`, `UnknownName`, `MissingOperand`, `ExtraOperand`,
/// and then that of its first operand that has one. `OutOfMemory` is want of memory.
#[tactic(auto, unfolding(crate::specs::Line::line_of))]
pub fn read_line(alloc: Global, text: &[u8], line: u32) -> Result<Line, LineError>
    ensures gives { GivesLine line result (line_of text.now) }
    ensures registers { IfOk result HasRegisters }
    ensures label { IfOk result HasLabel }
{
    let Some((label, rest)) = parts(content(text)) else {
        return Err(fault(line, LineKind::BadToken));
    };
    if let Err(kind) = check_label(label) {
        return Err(fault(line, kind));
    }
    let body = body(alloc, line, rest)?;
    let label = match label {
        None => None,
        Some(text) => match Name::new(alloc, text) {
            Ok(name) => Some(name),
            Err(_) => return Err(LineError::OutOfMemory),
        },
    };
    Ok(Line { label, body })
}
