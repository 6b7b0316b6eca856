use strand_asm_lines::Section;

/// What a line adds to an image: nothing, a turn to a section, an entry, one or two code words, a data
/// word, or so many data words of 0.
#[derive(Clone, Copy)]
pub(crate) enum Addition {
    Nothing,
    Section(Section),
    Entry(u32),
    Code(u32),
    Pair(u32, u32),
    Data(u64),
    Zeros(u32),
}
