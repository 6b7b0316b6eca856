// Where the latest earlier entry of a word stands.
ghost use Rattle.std.specs.Prelude.{◌<◌, length};
ghost use Rattle.strand_base.specs.declared.limits.TheConstants.{MOST_RING};
ghost use Rattle.strand_buffer.specs.Links.{IsLink};

use crate::Entry;

// How far before the end of the list the latest entry of this word stands, and one more than the list
// is long where it has none.
pub(crate) fn distance_to(entries: &[Entry], word: u64) -> u32
    requires { length entries.now < MOST_RING }
    ensures { IsLink entries.now (length entries.now) word result }
{
    let mut distance = 1;
    for entry in entries {
        if entry.word == word {
            distance = 1;
        } else {
            distance += 1;
        }
    }
    distance
}
