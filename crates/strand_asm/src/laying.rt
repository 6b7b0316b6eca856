ghost use Rattle.std.specs.Prelude.{◌≡◌, ◌+◌, ◌-◌, ◌*◌, ◌<◌, ◌≤◌, ◌^◌, length, OnOk, Ok};
ghost use Rattle.strand_base.specs.Text.{lines_of};
ghost use Rattle.strand_asm_lines.specs.Line.{line_of};
ghost use Rattle.strand_asm.specs.Layout.{GivesAssembly, IsAtMost, GivesState, at_line, count_in, layout_after, is_code, is_placed, laid, layout_of, on_line, size_of, with_label, with_more_words};

use crate::AsmFault;
use crate::layout::{Layout, nothing};
use crate::operands::{number, signed};
use crate::place::Place;
use crate::reading::read;
use std::alloc::Global;
use strand_asm_lines::{
    Body, Line, LineError, LineFault, LineKind, Mnemonic, Name, Pattern, Section, read_line,
};
use strand_base::next_line;

/// How many words an instruction takes.
fn size_of(pattern: &Pattern) -> u32
    ensures { result ≡ size_of pattern.now }
{
    match pattern.op {
        Mnemonic::Li => {
            if signed(2048, number(&pattern.second)).is_some() {
                1
            } else {
                2
            }
        }
        Mnemonic::La => 2,
        _ => 1,
    }
}

fn is_code(section: Section) -> bool
    ensures { result ≡ is_code section }
{
    match section {
        Section::Code => true,
        Section::Volatile | Section::Persist => false,
    }
}

/// Instructions stand in the code, and `.space` does not.
fn is_placed(section: Section, body: &Body) -> bool
    ensures { result ≡ is_placed section body.now }
{
    match body {
        Body::Code(_) => is_code(section),
        Body::Space(_) => !is_code(section),
        _ => true,
    }
}

fn count_in(layout: &Layout) -> u64
    ensures { result ≡ count_in layout.now.section layout.now }
{
    match layout.section {
        Section::Code => layout.code,
        Section::Volatile => layout.volatile,
        Section::Persist => layout.persistent,
    }
}

/// Adds words to a section. The layout is that of so many lines.
fn add_words(layout: &mut Layout, section: Section, count: u32, lines: u32)
    requires room { IsAtMost (4294967295 * lines) layout.old }
    requires lines { lines + 1 < 2 ^ 32 }
    ensures gives { layout.new ≡ with_more_words section count layout.old }
    ensures room { IsAtMost (4294967295 * (lines + 1)) layout.new }
{
    match section {
        Section::Code => layout.code += u64::from(count),
        Section::Volatile => layout.volatile += u64::from(count),
        Section::Persist => layout.persistent += u64::from(count),
    }
}

/// What a line adds to the sizes.
fn grow(layout: &mut Layout, body: &Body, lines: u32)
    requires room { IsAtMost (4294967295 * lines) layout.old }
    requires lines { lines + 1 < 2 ^ 32 }
    ensures gives { layout.new ≡ layout_after layout.old body.now }
    ensures room { IsAtMost (4294967295 * (lines + 1)) layout.new }
{
    let section = layout.section;
    match body {
        Body::Empty => {}
        Body::Section(section) => layout.section = *section,
        Body::Entry(_) => layout.cores += 1,
        Body::Word(_) => add_words(layout, section, 1, lines),
        Body::Space(count) => add_words(layout, section, *count, lines),
        Body::Code(pattern) => add_words(layout, Section::Code, size_of(pattern), lines),
    }
}

/// Adds the label of a line.
fn add_label(
    alloc: Global,
    layout: &mut Layout,
    name: &Name,
    line: u32,
    lines: u32,
) -> Result<(), AsmFault>
    requires room { IsAtMost (4294967295 * lines) layout.old }
    ensures gives { GivesState result layout.new (with_label line (Some name.now) layout.old) }
    ensures room { OnOk result (IsAtMost (4294967295 * lines) layout.new) }
{
    if let Some(place) = layout.labels.label_place(name.as_str()) {
        return Err(AsmFault::Duplicate {
            line,
            first: place.line,
        });
    }
    let place = Place {
        line,
        section: layout.section,
        index: count_in(layout),
    };
    match layout.labels.add(alloc, name.as_str(), place) {
        Ok(()) => Ok(()),
        Err(_) => Err(AsmFault::OutOfMemory),
    }
}

/// The layout behind one more line.
#[tactic(auto, unfolding(crate::specs::Layout::laid))]
fn lay(alloc: Global, layout: &mut Layout, line: &Line, lines: u32) -> Result<(), AsmFault>
    requires room { IsAtMost (4294967295 * lines) layout.old }
    requires lines { lines + 1 < 2 ^ 32 }
    ensures gives { GivesState result layout.new (laid (lines + 1) layout.old line.now) }
    ensures room { OnOk result (IsAtMost (4294967295 * (lines + 1)) layout.new) }
{
    if !is_placed(layout.section, &line.body) {
        let kind = LineKind::UnknownName;
        return Err(AsmFault::Line(LineFault {
            line: lines + 1,
            kind,
        }));
    }
    if let Some(name) = &line.label {
        add_label(alloc, layout, name, lines + 1, lines)?;
    }
    grow(layout, &line.body, lines);
    Ok(())
}

fn lay_text(alloc: Global, layout: &mut Layout, text: &[u8], lines: u32) -> Result<(), AsmFault>
    requires room { IsAtMost (4294967295 * lines) layout.old }
    requires lines { lines + 1 < 2 ^ 32 }
    ensures gives { GivesState result layout.new (on_line laid (lines + 1) layout.old text.now) }
    ensures room { OnOk result (IsAtMost (4294967295 * (lines + 1)) layout.new) }
{
    let line = read(alloc, text, lines + 1)?;
    lay(alloc, layout, &line, lines)
}

/// The layout of a text, or the first fault of its lines.
#[tactic(auto, unfolding(crate::specs::Layout::layout_of))]
pub(crate) fn layout_of(alloc: Global, text: &[u8]) -> Result<Layout, AsmFault>
    requires { length text.now < 2 ^ 32 }
    ensures { GivesAssembly result (layout_of text.now) }
{
    let mut layout = nothing(alloc);
    let mut from = 0;
    let mut lines = 0;
    while let Some(span) = next_line(text, from) {
        lay_text(alloc, &mut layout, &text[span.start..span.end], lines)?;
        lines += 1;
        from = span.next;
    }
    Ok(layout)
}
