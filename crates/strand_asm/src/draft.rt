ghost use Rattle.std.specs.Prelude.{◌≡◌, ◌++◌, ◌∷◌, [], length, replicate, IfOk, OnOk};
ghost use Rattle.strand_image.specs.Image.{checked_image};
ghost use Rattle.strand_asm.specs.Draft.{added, blank};
ghost use Rattle.strand_asm.specs.Assemble.{with_symbols};

use crate::addition::Addition;
use std::alloc::Global;
use std::marker::Model;
use strand_asm_lines::Section;
use strand_base::OutOfMemory;
use strand_image::{Image, Symbol};

/// An image while it is put together, and the section that the next line stands in.
#[derive(Drop)]
pub(crate) struct Draft {
    section: Section,
    entries: Vec<u32>,
    code: Vec<u32>,
    volatile: Vec<u64>,
    persistent: Vec<u64>,
}

impl Model for Draft {
    ghost use Rattle.std.specs.Prelude.{[]};
    ghost use Rattle.strand_image.specs.ImageSeen.{image_seen};
    ghost use Rattle.strand_asm.specs.DraftSeen.{DraftSeen};

    ghost Value = { DraftSeen };

    ghost view = { λ s. record { section = s.section; parts = image_seen s.entries.items s.code.items s.volatile.items s.persistent.items [] } };
}

fn put_zeros(words: &mut Vec<u64>, count: u32) -> Result<(), OutOfMemory>
    ensures { OnOk result (words.new.items ≡ words.old.items ++ replicate count 0) }
{
    for _ in 0..count {
        if words.push(0).is_err() {
            return Err(OutOfMemory);
        }
    }
    Ok(())
}

fn put_one<T: Drop>(words: &mut Vec<T>, word: T) -> Result<(), OutOfMemory>
    ensures { OnOk result (words.new.items ≡ words.old.items ++ word ∷ []) }
{
    match words.push(word) {
        Ok(()) => Ok(()),
        Err(_) => Err(OutOfMemory),
    }
}

impl Draft {
    /// An image without words.
    #[tactic(auto, unfolding(crate::specs::Draft::blank))]
    pub(crate) fn blank(alloc: Global) -> Draft
        ensures { result ≡ blank }
    {
        Draft {
            section: Section::Code,
            entries: Vec::new(alloc),
            code: Vec::new(alloc),
            volatile: Vec::new(alloc),
            persistent: Vec::new(alloc),
        }
    }

    /// The section that the next line stands in.
    pub(crate) fn section(&self) -> Section
        ensures { result ≡ self.now.section }
    {
        self.section
    }

    /// How many code words there are.
    pub(crate) fn code_count(&self) -> u64
        ensures { result ≡ length self.now.parts.code }
    {
        self.code.len() as u64
    }

    /// Adds what a line adds.
    #[tactic(auto, unfolding(crate::specs::Draft::added))]
    pub(crate) fn add(&mut self, addition: Addition) -> Result<(), OutOfMemory>
        ensures { OnOk result (self.new ≡ added self.old addition) }
    {
        match addition {
            Addition::Nothing => Ok(()),
            Addition::Section(section) => {
                self.section = section;
                Ok(())
            }
            Addition::Entry(entry) => put_one(&mut self.entries, entry),
            Addition::Code(word) => put_one(&mut self.code, word),
            Addition::Pair(first, second) => {
                put_one(&mut self.code, first)?;
                put_one(&mut self.code, second)
            }
            Addition::Data(word) => match self.section {
                Section::Code => Ok(()),
                Section::Volatile => put_one(&mut self.volatile, word),
                Section::Persist => put_one(&mut self.persistent, word),
            },
            Addition::Zeros(count) => match self.section {
                Section::Code => Ok(()),
                Section::Volatile => put_zeros(&mut self.volatile, count),
                Section::Persist => put_zeros(&mut self.persistent, count),
            },
        }
    }

    /// The image, which begins at the first code word where the text names no entry.
    pub(crate) fn finish(self, symbols: Vec<Symbol>) -> Result<Image, OutOfMemory>
        requires { let p = with_symbols symbols.items self.parts in checked_image p ≡ Ok p }
        ensures { IfOk result (λ image. image ≡ with_symbols symbols.items self.parts) }
    {
        let mut entries = self.entries;
        if entries.is_empty() {
            put_one(&mut entries, 0)?;
        }
        match Image::make(entries, self.code, self.volatile, self.persistent, symbols) {
            Ok(image) => Ok(image),
            Err(_) => Err(OutOfMemory),
        }
    }
}
