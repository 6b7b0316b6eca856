ghost use Rattle.strand_app.specs.Commands.Upgrade.{upgrade_rule};
ghost use Rattle.strand_app.specs.Runs.{Comes};
ghost use Rattle.strand_app.specs.World.{world};
ghost use Rattle.strand_modules.specs.Bank.{BankSeen};

use crate::contents::fetch_image;
use crate::image_file::image_file;
use crate::refusing::refuse;
use crate::status::Made;
use std::alloc::Global;
use strand_base::{Files, OutOfMemory};

/// `upgrade IMAGE`: the image in version 2, from a file of either version.
pub fn upgrade_image<F: Files>(
    alloc: Global,
    image: &str,
    files: &mut F,
) -> Result<Made, OutOfMemory>
    ensures { (bank : BankSeen) → Comes (upgrade_rule image.now bank)
        (world (F.seen files.old) bank) (world (F.seen files.new) bank) result }
{
    match fetch_image(alloc, 1, image, files) {
        Ok(image) => image_file(alloc, &image),
        Err(fault) => refuse(alloc, fault),
    }
}
