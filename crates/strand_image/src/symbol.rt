use crate::label::Label;

/// A section of an image.
#[derive(Clone, Copy, Debug, PartialEq, Eq)]
pub enum Region {
    Code,
    Volatile,
    Persistent,
}

/// A name for a place of a section: that before the word with this number, or behind the last word.
#[derive(Debug, Drop)]
pub struct Symbol {
    pub region: Region,
    pub place: u32,
    pub name: Label,
}
