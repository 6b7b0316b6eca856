ghost use Rattle.std.specs.Prelude.{IfOk};
ghost use Rattle.strand_app.specs.Commands.List.{list_rule};
ghost use Rattle.strand_app.specs.Answers.{PutsOk};
ghost use Rattle.strand_app.specs.Runs.{Comes};
ghost use Rattle.strand_app.specs.World.{world};
ghost use Rattle.strand_asm.specs.Listing.{listing};
ghost use Rattle.strand_modules.specs.Bank.{BankSeen};

use crate::contents::fetch_image;
use crate::refusing::refuse;
use crate::status::{Made, Status};
use std::alloc::Global;
use strand_asm::list;
use strand_base::{Files, OutOfMemory};
use strand_image::Image;

fn listing_of(alloc: Global, image: &Image) -> Result<Made, OutOfMemory>
    ensures { IfOk result (PutsOk (listing image.now)) }
{
    let mut text = Vec::new(alloc);
    list(image, &mut text)?;
    Ok(Made {
        status: Status::Ok,
        text,
    })
}

/// `list IMAGE`: the listing of an image.
pub fn list_image<F: Files>(alloc: Global, image: &str, files: &mut F) -> Result<Made, OutOfMemory>
    ensures { (bank : BankSeen) → Comes (list_rule image.now bank)
        (world (F.seen files.old) bank) (world (F.seen files.new) bank) result }
{
    match fetch_image(alloc, 1, image, files) {
        Ok(image) => listing_of(alloc, &image),
        Err(fault) => refuse(alloc, fault),
    }
}
