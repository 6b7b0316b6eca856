/// A field of an instruction, by its name in `Instr`.
#[derive(Clone, Copy, Debug, PartialEq, Eq)]
pub enum Field {
    Rd,
    Rs1,
    Rs2,
    Imm,
    Offset,
    Amount,
    Bits,
}

/// A field of an instruction whose value is outside its range.
#[derive(Clone, Copy, Debug, PartialEq, Eq)]
pub struct FieldFault {
    /// Which field it is.
    pub field: Field,
    /// The value that it has.
    pub value: i64,
}
