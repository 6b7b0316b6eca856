ghost use Rattle.std.specs.Prelude.{◌≡◌, IfOk, length};
ghost use Rattle.strand_again.specs.Inputs.{restarted};

use std::alloc::Global;
use strand_base::OutOfMemory;
use strand_image::Image;

/// A copy of the image with these words as its persistent words, of which it has as many, and without
/// symbols, at which no run looks.
pub fn restarted(alloc: Global, image: &Image, words: &[u64]) -> Result<Image, OutOfMemory>
    requires { length words.now ≡ length image.now.persistent }
    ensures { IfOk result (λ copy. copy ≡ restarted image.now words.now) }
{
    Ok(Image {
        entries: Vec::from_slice(alloc, image.entries())?,
        code: Vec::from_slice(alloc, image.code())?,
        volatile: Vec::from_slice(alloc, image.volatile())?,
        persistent: Vec::from_slice(alloc, words)?,
        symbols: Vec::new(alloc),
    })
}
