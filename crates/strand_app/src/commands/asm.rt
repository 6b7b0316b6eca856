ghost use Rattle.strand_app.specs.Commands.Asm.{asm_rule};
ghost use Rattle.strand_app.specs.Runs.{Comes};
ghost use Rattle.strand_app.specs.World.{world};
ghost use Rattle.strand_modules.specs.Bank.{BankSeen};

use crate::contents::fetch_text;
use crate::image_file::image_file;
use crate::refusing::refuse;
use crate::status::Made;
use std::alloc::Global;
use strand_base::{Files, OutOfMemory};

/// `asm TEXT`: the image that an assembler text gives.
pub fn asm_text<F: Files>(alloc: Global, text: &str, files: &mut F) -> Result<Made, OutOfMemory>
    ensures { (bank : BankSeen) → Comes (asm_rule text.now bank)
        (world (F.seen files.old) bank) (world (F.seen files.new) bank) result }
{
    match fetch_text(alloc, text, files) {
        Ok(image) => image_file(alloc, &image),
        Err(fault) => refuse(alloc, fault),
    }
}
