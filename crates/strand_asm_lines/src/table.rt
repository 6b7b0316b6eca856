ghost use Rattle.std.specs.Prelude.{◌≡◌, map};
ghost use Rattle.strand_asm_lines.specs.Table.{form_of, mnemonic_of, named_among, operation_of, other_of, place_count, due_count};

use crate::Mnemonic;
use crate::Mnemonic::*;
use strand_isa::{
    branch_named, imm_named, load_named, reg_named, shift_named, store_named, upper_named,
};

/// What is due at an operand's place.
#[derive(Clone, Copy)]
pub(crate) enum Due {
    Nothing,
    Register,
    Number,
    Target,
    Label,
    Memory,
}

/// What is due at each place of an instruction.
#[derive(Clone, Copy)]
pub(crate) struct Form {
    pub(crate) first: Due,
    pub(crate) second: Due,
    pub(crate) third: Due,
}

/// The words that name no operation, each with its mnemonic.
const OTHER_WORDS: [(&str, Mnemonic); 14] = [
    ("jal", Jal),
    ("jalr", Jalr),
    ("fence", Fence),
    ("ecall", Ecall),
    ("ebreak", Ebreak),
    ("persistbarrier", PersistBarrier),
    ("newstrand", NewStrand),
    ("joinstrand", JoinStrand),
    ("nop", Nop),
    ("ret", Ret),
    ("mv", Mv),
    ("li", Li),
    ("la", La),
    ("j", J),
];

fn due_form(first: Due, second: Due, third: Due) -> Form
    ensures { result ≡ record { first = first; second = second; third = third } }
{
    Form {
        first,
        second,
        third,
    }
}

/// What is due behind the word of an instruction.
pub(crate) fn form_of(op: Mnemonic) -> Form
    ensures { result ≡ form_of op }
{
    match op {
        Upper(_) => due_form(Due::Register, Due::Number, Due::Nothing),
        Jal => due_form(Due::Register, Due::Target, Due::Nothing),
        Jalr => due_form(Due::Register, Due::Memory, Due::Nothing),
        Branch(_) => due_form(Due::Register, Due::Register, Due::Target),
        Load(_) | Store(_) => due_form(Due::Register, Due::Memory, Due::Nothing),
        Imm(_) | Shift(_) => due_form(Due::Register, Due::Register, Due::Number),
        Reg(_) => due_form(Due::Register, Due::Register, Due::Register),
        Fence | Ecall | Ebreak | PersistBarrier | NewStrand | JoinStrand | Nop | Ret => {
            due_form(Due::Nothing, Due::Nothing, Due::Nothing)
        }
        Mv => due_form(Due::Register, Due::Register, Due::Nothing),
        Li => due_form(Due::Register, Due::Number, Due::Nothing),
        La => due_form(Due::Register, Due::Label, Due::Nothing),
        J => due_form(Due::Target, Due::Nothing, Due::Nothing),
    }
}

/// The operation that a word names.
#[tactic(auto, unfolding(crate::specs::Table::operation_of))]
fn operation(word: &[u8]) -> Option<Mnemonic>
    ensures { result ≡ operation_of word.now }
{
    if let Some(op) = upper_named(word) {
        return Some(Upper(op));
    }
    if let Some(op) = branch_named(word) {
        return Some(Branch(op));
    }
    if let Some(op) = load_named(word) {
        return Some(Load(op));
    }
    if let Some(op) = store_named(word) {
        return Some(Store(op));
    }
    if let Some(op) = imm_named(word) {
        return Some(Imm(op));
    }
    if let Some(op) = shift_named(word) {
        return Some(Shift(op));
    }
    reg_named(word).map(Reg)
}

fn named_among(mut rows: &[(&str, Mnemonic)], word: &[u8]) -> Option<Mnemonic>
    ensures { result ≡ named_among (map (λ row. (row.0.now, row.1)) rows.entry.now) word.now }
{
    while let [row, rest @ ..] = rows {
        if row.0.as_bytes() == word {
            return Some(row.1);
        }
        rows = rest;
    }
    None
}

fn other(word: &[u8]) -> Option<Mnemonic>
    ensures { result ≡ other_of word.now }
{
    named_among(&OTHER_WORDS, word)
}

/// The mnemonic of a word.
#[tactic(auto, unfolding(crate::specs::Table::mnemonic_of))]
pub(crate) fn mnemonic(word: &[u8]) -> Option<Mnemonic>
    ensures { result ≡ mnemonic_of word.now }
{
    operation(word).or_else(|| other(word))
}

fn place_count(due: Due) -> usize
    ensures { result ≡ place_count due }
{
    match due {
        Due::Nothing => 0,
        Due::Register | Due::Number | Due::Target | Due::Label | Due::Memory => 1,
    }
}

/// How many operands are due.
pub(crate) fn due_count(form: Form) -> usize
    ensures { result ≡ due_count form }
{
    place_count(form.first) + place_count(form.second) + place_count(form.third)
}
