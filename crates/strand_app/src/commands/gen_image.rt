ghost use Rattle.strand_app.specs.Commands.GenImage.{gen_image_rule};
ghost use Rattle.strand_app.specs.Runs.{Comes};
ghost use Rattle.strand_app.specs.World.{World};

use crate::generating::generated;
use crate::image_file::image_file;
use crate::refusing::refuse;
use crate::status::Made;
use std::alloc::Global;
use strand_base::OutOfMemory;

/// `gen-image SEED SIZE`: the generated image.
pub fn image_generated(alloc: Global, seed: u64, size: u64) -> Result<Made, OutOfMemory>
    ensures { (same : World) → Comes (gen_image_rule seed size same.bank) same same result }
{
    match generated(alloc, seed, size) {
        Ok(files) => image_file(alloc, &files.image),
        Err(fault) => refuse(alloc, fault),
    }
}
