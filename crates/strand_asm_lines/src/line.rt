use crate::{Mnemonic, Name};

/// A section of assembler text.
#[derive(Clone, Copy, Debug, PartialEq, Eq)]
pub enum Section {
    Code,
    Volatile,
    Persist,
}

/// What stands at an operand's place: nothing, a register's number, a number, a name, or a place in
/// memory as an offset from a register.
#[derive(Debug, Drop)]
pub enum Operand {
    Absent,
    Reg(u8),
    Num(i128),
    Label(Name),
    Mem { offset: i128, base: u8 },
}

/// An instruction with its operands in the order of the text. Places that its form lacks are absent.
#[derive(Debug, Drop)]
pub struct Pattern {
    pub op: Mnemonic,
    pub first: Operand,
    pub second: Operand,
    pub third: Operand,
}

/// What a line says behind its label.
#[derive(Debug, Drop)]
pub enum Body {
    Empty,
    Section(Section),
    Entry(Operand),
    Word(i128),
    Space(u32),
    Code(Pattern),
}

/// A line of assembler text.
#[derive(Debug, Drop)]
pub struct Line {
    pub label: Option<Name>,
    pub body: Body,
}
