ghost use Rattle.std.specs.Prelude.{IfOk};
ghost use Rattle.strand_app.specs.Answers.{PutsOk};
ghost use Rattle.strand_image.specs.Image.{image_bytes};

use crate::status::{Made, Status};
use std::alloc::Global;
use strand_base::OutOfMemory;
use strand_image::{Image, write_image};

/// The answer of a command that puts an image: the bytes of its file.
pub fn image_file(alloc: Global, image: &Image) -> Result<Made, OutOfMemory>
    ensures { IfOk result (PutsOk (image_bytes image.now)) }
{
    let mut text = Vec::new(alloc);
    write_image(image, &mut text)?;
    Ok(Made {
        status: Status::Ok,
        text,
    })
}
