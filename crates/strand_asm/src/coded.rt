use strand_isa::Instr;

/// The instructions that a line of code stands for.
#[derive(Clone, Copy)]
pub(crate) enum Coded {
    One(Instr),
    Two(Instr, Instr),
}
