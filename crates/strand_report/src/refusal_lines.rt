ghost use Rattle.std.specs.Prelude.{◌≡◌, map};
ghost use Rattle.strand_base.specs.Puts.{Puts};
ghost use Rattle.strand_inputs.specs.Machine.{key_word};
ghost use Rattle.strand_report.specs.Fields.{field_text};
ghost use Rattle.strand_report.specs.Refusals.{content_line, image_fault_line, input_fault_line, input_line, kind_word, limit_line, quantity_word, refusal_line, text_fault_line};

use crate::fields::Field::{Decimal, Signed, Word};
use crate::fields::{Field, put_fields};
use crate::{ContentFault, Refusal};
use strand_asm::AsmFault;
use strand_asm_lines::LineKind;
use strand_base::OutOfMemory;
use strand_image::{ImageFault, Quantity};
use strand_inputs::{InputFault, Key};

fn word_of_quantity(quantity: Quantity) -> &'static str
    ensures { result.now ≡ quantity_word quantity }
{
    match quantity {
        Quantity::Cores => "cores",
        Quantity::Code => "code",
        Quantity::Volatile => "volatile",
        Quantity::Persistent => "persistent",
        Quantity::Symbols => "symbols",
        Quantity::Names => "names",
    }
}

fn word_of_kind(kind: LineKind) -> &'static str
    ensures { result.now ≡ kind_word kind }
{
    match kind {
        LineKind::BadToken => "badtoken",
        LineKind::LongName => "longname",
        LineKind::BadNumber => "badnumber",
        LineKind::BadRegister => "badregister",
        LineKind::UnknownName => "unknownname",
        LineKind::MissingOperand => "missingoperand",
        LineKind::ExtraOperand => "extraoperand",
    }
}

fn word_of_key(key: Key) -> &'static str
    ensures { result.now ≡ key_word key }
{
    match key {
        Key::Mode => "mode",
        Key::Queue => "queue",
        Key::Buffers => "buffers",
        Key::Ring => "ring",
        Key::Flight => "flight",
        Key::Sets => "sets",
        Key::Ways => "ways",
    }
}

/// The line of a file of which something is outside its limits.
fn put_limit(into: &mut Vec<u8>, file: u32, rest: &[Field<'_>]) -> Result<(), OutOfMemory>
    ensures { Puts result (limit_line file (map field_text rest.now))
        into.old.items into.new.items }
{
    let front = [Word("fault"), Word("limit"), Decimal(file as u64)];
    put_fields(into, &front, rest)
}

/// The line of a file that is not of its form.
fn put_input(into: &mut Vec<u8>, file: u32, rest: &[Field<'_>]) -> Result<(), OutOfMemory>
    ensures { Puts result (input_line file (map field_text rest.now))
        into.old.items into.new.items }
{
    let front = [Word("fault"), Word("input"), Decimal(file as u64)];
    put_fields(into, &front, rest)
}

fn put_input_fault(into: &mut Vec<u8>, file: u32, fault: InputFault) -> Result<(), OutOfMemory>
    ensures { Puts result (input_fault_line file fault) into.old.items into.new.items }
{
    match fault {
        InputFault::BadLine { line } => {
            put_input(into, file, &[Word("badline"), Decimal(line as u64)])
        }
        InputFault::Limit { line, value } => put_limit(
            into,
            file,
            &[Word("line"), Decimal(line as u64), Decimal(value)],
        ),
        InputFault::Repeated { line, first } => put_input(
            into,
            file,
            &[
                Word("repeated"),
                Decimal(line as u64),
                Decimal(first as u64),
            ],
        ),
        InputFault::Missing { key } => {
            put_input(into, file, &[Word("missing"), Word(word_of_key(key))])
        }
        InputFault::CrashLength { need, have } => put_input(
            into,
            file,
            &[Word("crashlength"), Decimal(need), Decimal(have)],
        ),
        InputFault::OutOfMemory => Err(OutOfMemory),
    }
}

fn put_image_fault(into: &mut Vec<u8>, file: u32, fault: ImageFault) -> Result<(), OutOfMemory>
    ensures { Puts result (image_fault_line file fault) into.old.items into.new.items }
{
    match fault {
        ImageFault::Magic => put_input(into, file, &[Word("magic")]),
        ImageFault::Short { need, have } => {
            put_input(into, file, &[Word("short"), Decimal(need), Decimal(have)])
        }
        ImageFault::Long { need, have } => {
            put_input(into, file, &[Word("long"), Decimal(need), Decimal(have)])
        }
        ImageFault::Limit { field, value } => put_limit(
            into,
            file,
            &[Word(word_of_quantity(field)), Decimal(value)],
        ),
        ImageFault::Entry { core, value } => put_input(
            into,
            file,
            &[Word("entry"), Decimal(core as u64), Decimal(value as u64)],
        ),
        ImageFault::Symbol { index } => {
            put_input(into, file, &[Word("symbol"), Decimal(index as u64)])
        }
        ImageFault::OutOfMemory => Err(OutOfMemory),
    }
}

fn put_text_fault(into: &mut Vec<u8>, file: u32, fault: AsmFault) -> Result<(), OutOfMemory>
    ensures { Puts result (text_fault_line file fault) into.old.items into.new.items }
{
    match fault {
        AsmFault::Line(fault) => put_input(
            into,
            file,
            &[
                Word("line"),
                Decimal(fault.line as u64),
                Word(word_of_kind(fault.kind)),
            ],
        ),
        AsmFault::Duplicate { line, first } => put_input(
            into,
            file,
            &[
                Word("duplicate"),
                Decimal(line as u64),
                Decimal(first as u64),
            ],
        ),
        AsmFault::Undefined { line } => {
            put_input(into, file, &[Word("undefined"), Decimal(line as u64)])
        }
        AsmFault::Range { line, value } => put_input(
            into,
            file,
            &[Word("range"), Decimal(line as u64), Signed(value)],
        ),
        AsmFault::Limit { what, number } => put_limit(
            into,
            file,
            &[Word(word_of_quantity(what)), Decimal(number)],
        ),
        AsmFault::OutOfMemory => Err(OutOfMemory),
    }
}

fn put_content_fault(into: &mut Vec<u8>, file: u32, fault: ContentFault) -> Result<(), OutOfMemory>
    ensures { Puts result (content_line file fault) into.old.items into.new.items }
{
    match fault {
        ContentFault::TooLong { limit } => {
            put_limit(into, file, &[Word("bytes"), Decimal(limit as u64)])
        }
        ContentFault::Text(fault) => put_text_fault(into, file, fault),
        ContentFault::Image(fault) => put_image_fault(into, file, fault),
        ContentFault::Input(fault) => put_input_fault(into, file, fault),
    }
}

/// Appends the line of a refusal (docs/FORMATS.md): `fault limit K ..` or `fault input K ..` for the content of a file,
/// `fault stop STOP STEPS`, `fault bank NEED HAVE` or `fault limit size N`.
///
/// `OutOfMemory`: a front of the line is appended. It is also the answer where the reader of a file met it, since this
/// is no fault of the content and has no line.
pub fn write_refusal(refusal: Refusal, into: &mut Vec<u8>) -> Result<(), OutOfMemory>
    ensures { Puts result (refusal_line refusal) into.old.items into.new.items }
{
    match refusal {
        Refusal::File { file, fault } => put_content_fault(into, file, fault),
        Refusal::Stop(past) => put_fields(
            into,
            &[Word("fault"), Word("stop")],
            &[Decimal(past.stop), Decimal(past.steps)],
        ),
        Refusal::Bank { need, have } => put_fields(
            into,
            &[Word("fault"), Word("bank")],
            &[Decimal(need), Decimal(have)],
        ),
        Refusal::Size { size } => put_fields(
            into,
            &[Word("fault"), Word("limit")],
            &[Word("size"), Decimal(size)],
        ),
    }
}
