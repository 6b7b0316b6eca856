ghost use Rattle.std.specs.Prelude.{◌≡◌, ◌+◌, ◌<◌, ◌≤◌, ◌^◌, length, IfOk};
ghost use Rattle.strand_base.specs.declared.limits.TheConstants.{MOST_CODE};
ghost use Rattle.strand_asm_lines.specs.Line.{HasOperandRegister, HasRegisters, HasRegistersOf};
ghost use Rattle.strand_asm.specs.Layout.{GivesAssembly, GivesState, on_line};
ghost use Rattle.strand_asm.specs.Encode.{AreValid};
ghost use Rattle.strand_asm.specs.Draft.{addition, draft_of, drafted, entry_added, entry_number, word_added, coded_words};
ghost use Rattle.strand_asm.specs.declared.fault.AsmFault.{AsmFault};

use crate::AsmFault;
use crate::addition::Addition;
use crate::coded::Coded;
use crate::coding::pattern_coded;
use crate::draft::Draft;
use crate::layout::Layout;
use crate::operands::{below, number, wrapped};
use crate::place::Site;
use crate::reading::read;
use crate::targets::word_named;
use std::alloc::Global;
use strand_asm_lines::{Body, Line, Operand, Section};
use strand_base::next_line;
use strand_isa::encode;

fn entry_number(layout: &Layout, line: u32, target: &Operand) -> Result<i128, AsmFault>
    ensures { result ≡ entry_number layout.now line target.now }
{
    match target {
        Operand::Label(name) => {
            let index = word_named(&layout.labels, line, name)?;
            Ok(i128::from(index))
        }
        _ => Ok(number(target)),
    }
}

/// An entry, which is the number of a code word.
#[tactic(auto, unfolding(crate::specs::Draft::entry_added))]
fn entry_added(layout: &Layout, line: u32, target: &Operand) -> Result<Addition, AsmFault>
    requires { layout.now.code ≤ MOST_CODE }
    ensures { result ≡ entry_added layout.now line target.now }
{
    let value = entry_number(layout, line, target)?;
    match below(layout.code as u32, value) {
        Some(entry) => Ok(Addition::Entry(entry)),
        None => Err(AsmFault::Range { line, value }),
    }
}

/// A word of code or data.
#[tactic(auto, unfolding(crate::specs::Draft::word_added))]
fn word_added(line: u32, section: Section, value: i128) -> Result<Addition, AsmFault>
    ensures { result ≡ word_added line section value }
{
    let half = match section {
        Section::Code => 2147483648,
        Section::Volatile | Section::Persist => 9223372036854775808,
    };
    let Some(word) = wrapped(half, value) else {
        return Err(AsmFault::Range { line, value });
    };
    match section {
        Section::Code => Ok(Addition::Code(word as u32)),
        Section::Volatile | Section::Persist => Ok(Addition::Data(word)),
    }
}

fn words_of(coded: Coded) -> Addition
    requires { AreValid coded }
    ensures { result ≡ coded_words coded }
{
    match coded {
        Coded::One(i) => Addition::Code(encode(&i)),
        Coded::Two(i, j) => Addition::Pair(encode(&i), encode(&j)),
    }
}

/// What a line adds.
#[tactic(auto, unfolding(crate::specs::Draft::addition))]
fn addition(
    layout: &Layout,
    site: Site,
    section: Section,
    body: &Body,
) -> Result<Addition, AsmFault>
    requires code { layout.now.code ≤ MOST_CODE }
    requires registers { HasRegistersOf body.now }
    ensures { result ≡ addition layout.now site section body.now }
{
    match body {
        Body::Empty => Ok(Addition::Nothing),
        Body::Section(section) => Ok(Addition::Section(*section)),
        Body::Entry(target) => entry_added(layout, site.line, target),
        Body::Word(value) => word_added(site.line, section, *value),
        Body::Space(count) => Ok(Addition::Zeros(*count)),
        Body::Code(pattern) => {
            let coded = pattern_coded(&layout.labels, site, pattern)?;
            Ok(words_of(coded))
        }
    }
}

/// The image behind one more line.
#[tactic(auto, unfolding(crate::specs::Draft::drafted))]
fn draft_line(layout: &Layout, draft: &mut Draft, line: &Line, number: u32) -> Result<(), AsmFault>
    requires code { layout.now.code ≤ MOST_CODE }
    requires registers { HasRegisters line.now }
    ensures { GivesState result draft.new (drafted layout.now number draft.old line.now) }
{
    let site = Site {
        line: number,
        at: draft.code_count(),
    };
    let addition = addition(layout, site, draft.section(), &line.body)?;
    match draft.add(addition) {
        Ok(()) => Ok(()),
        Err(_) => Err(AsmFault::OutOfMemory),
    }
}

fn draft_text(
    alloc: Global,
    layout: &Layout,
    draft: &mut Draft,
    text: &[u8],
    number: u32,
) -> Result<(), AsmFault>
    requires { layout.now.code ≤ MOST_CODE }
    ensures { GivesState result draft.new (on_line (drafted layout.now) number draft.old text.now) }
{
    let line = read(alloc, text, number)?;
    draft_line(layout, draft, &line, number)
}

/// What the lines of a text add, or the first fault of their numbers and names.
#[tactic(auto, unfolding(crate::specs::Draft::draft_of))]
pub(crate) fn draft_of(alloc: Global, layout: &Layout, text: &[u8]) -> Result<Draft, AsmFault>
    requires code { layout.now.code ≤ MOST_CODE }
    requires text { length text.now < 2 ^ 32 }
    ensures { GivesAssembly result (draft_of layout.now text.now) }
{
    let mut draft = Draft::blank(alloc);
    let mut from = 0;
    let mut lines = 0;
    while let Some(span) = next_line(text, from) {
        lines += 1;
        draft_text(
            alloc,
            layout,
            &mut draft,
            &text[span.start..span.end],
            lines,
        )?;
        from = span.next;
    }
    Ok(draft)
}
