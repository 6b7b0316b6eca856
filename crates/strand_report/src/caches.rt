ghost use Rattle.strand_base.specs.Puts.{Puts};
ghost use Rattle.strand_report.specs.Caches.{cache_line};
ghost use Rattle.strand_report.specs.Numbered.{numbered_texts};

use crate::fields::Field::{Decimal, Word};
use crate::fields::put_fields;
use strand_base::OutOfMemory;
use strand_cache::Counts;

fn put_cache(into: &mut Vec<u8>, core: usize, counts: Counts) -> Result<(), OutOfMemory>
    ensures { Puts result (cache_line core counts) into.old.items into.new.items }
{
    put_fields(
        into,
        &[Word("cache"), Decimal(core as u64)],
        &[
            Word("hits"),
            Decimal(counts.hits),
            Word("misses"),
            Decimal(counts.misses),
        ],
    )
}

/// Appends `cache N hits A misses B` for each core, with how many of its accesses hit and missed.
pub(crate) fn put_caches(into: &mut Vec<u8>, cores: &[Counts]) -> Result<(), OutOfMemory>
    ensures { Puts result (numbered_texts cache_line cores.now) into.old.items into.new.items }
{
    for (core, counts) in cores.iter().enumerate() {
        put_cache(into, core, *counts)?;
    }
    Ok(())
}
