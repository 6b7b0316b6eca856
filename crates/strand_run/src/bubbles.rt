ghost use Rattle.std.specs.Prelude.{◌≡◌, IfOk};
ghost use Rattle.strand_rules.specs.Bubbles.{bubbles_of};

use std::alloc::Global;
use strand_base::OutOfMemory;
use strand_rules::{BubbleAt, Turn};

/// The bubbles among the turns of a run.
pub fn bubbles_of(alloc: Global, turns: &[Turn]) -> Result<Vec<BubbleAt>, OutOfMemory>
    ensures { IfOk result (λ bubbles. bubbles.items ≡ bubbles_of turns.now) }
{
    let mut bubbles = Vec::new(alloc);
    for (i, turn) in turns.iter().enumerate() {
        if let Turn::Bubble(cause) = *turn {
            bubbles.push(BubbleAt {
                cycle: i as u64 + 1,
                cause,
            })?;
        }
    }
    Ok(bubbles)
}
