ghost use Rattle.std.specs.Prelude.{◌≡◌, ◌<◌, ◌^◌, length};
ghost use Rattle.strand_asm.specs.Layout.{GivesAssembly};
ghost use Rattle.strand_asm.specs.Assemble.{assembled};

use crate::AsmFault;
use crate::drafting::draft_of;
use crate::laying::layout_of;
use crate::layout::check_limits;
use std::alloc::Global;
use strand_image::Image;

/// The image of an assembler text, by the rules of docs/assembler.md.
///
/// The fault is exactly the first of these. Over the lines in order: what is wrong with the line itself,
/// `UnknownName` for an instruction among data or `.space` in the code, `Duplicate` for a label that was
/// defined before. Then `Limit` for the first of cores, code, volatile and persistent words and labels whose
/// number is outside its limits. Then, over the lines in order, `Undefined` and `Range`. Sizes are counted before
/// any word is made. Lines are numbered from 1 with 32 bits, so a text has fewer than 2^32 bytes.
/// `OutOfMemory` is want of memory. Each label is a symbol of the image.
#[tactic(auto, unfolding(crate::specs::Assemble::assembled))]
pub fn assemble(alloc: Global, text: &[u8]) -> Result<Image, AsmFault>
    requires { length text.now < 2 ^ 32 }
    ensures gives { GivesAssembly result (assembled text.now) }
{
    let layout = layout_of(alloc, text)?;
    check_limits(&layout)?;
    let draft = draft_of(alloc, &layout, text)?;
    let Ok(symbols) = layout.labels.symbols(alloc) else {
        return Err(AsmFault::OutOfMemory);
    };
    match draft.finish(symbols) {
        Ok(image) => Ok(image),
        Err(_) => Err(AsmFault::OutOfMemory),
    }
}
