use strand_asm_lines::Section;

/// Where a label stands: on which line, and before which word of which section.
#[derive(Clone, Copy, Debug, PartialEq, Eq)]
pub(crate) struct Place {
    pub line: u32,
    pub section: Section,
    pub index: u64,
}

/// Where an instruction stands: on which line, and as which code word.
#[derive(Clone, Copy)]
pub(crate) struct Site {
    pub line: u32,
    pub at: u64,
}
