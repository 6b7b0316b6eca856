ghost use Rattle.std.specs.Prelude.{◌≡◌, ◌<◌, length, IfOk};
ghost use Rattle.strand_events.specs.Trace.{persists_of};
ghost use Rattle.strand_events.specs.Order.{set_of, is_joined};
ghost use Rattle.strand_events.specs.Numbers.{numbers_of};
ghost use Rattle.strand_judge.specs.Judged.{IsLeastSettled};
ghost use Rattle.strand_events.specs.Places.{LieIn};
ghost use Rattle.strand_judge.specs.Words.{crash_of};
ghost use Rattle.strand_judge.specs.Verdicts.{SaysYes, SaysNo, NamesWord, IsVerdict};

use crate::images::{first_difference, image_of};
use crate::listing::ends_of;
use crate::marking::{numbers_of, persists_of, rank};
use crate::offers::gather;
use crate::seeding::{mark_forced, mark_joined};
use crate::serving::serve;
use crate::verdict::Verdict;
use std::alloc::Global;
use strand_base::{Numbers, OutOfMemory, PERSISTENT_BASE};
use strand_order::Graph;

// Marks on the events, whose persists are the least settled set. `persists` are the event numbers of the
// persists, and `joined` the numbers of the joined ones.
fn settled(
    alloc: Global,
    graph: &Graph,
    persists: &[u32],
    joined: &[u32],
    first: &[u64],
    found: &[u64],
) -> Result<Vec<bool>, OutOfMemory>
    requires persists { persists.now ≡ persists_of graph.now.events }
    requires joined { joined.now ≡ numbers_of graph.now.events (is_joined graph.now.events) }
    requires same { length first.now ≡ length found.now }
    requires within { LieIn graph.now.events (length found.now) }
    ensures least { IfOk result (λ marks.
        IsLeastSettled graph.now.mode graph.now.events (crash_of first.now found.now) (set_of marks.items)) }
    ensures long { IfOk result (λ marks. length marks.items ≡ length graph.now.events) }
{
    let events = graph.events();
    let offered = gather(alloc, events, found)?;
    let ends = ends_of(alloc, graph)?;
    let mut marks = vec![in alloc; false; events.len()]?;
    let mut list = Vec::new(alloc);
    mark_joined(events, persists, joined, &mut marks, &mut list)?;
    mark_forced(events, &offered, first, found, &mut marks, &mut list)?;
    let mut done = 0;
    while done < list.len() {
        serve(
            graph, &ends, &offered, found, list[done], &mut marks, &mut list,
        )?;
        done += 1;
    }
    Ok(marks)
}

// What the least settled set says of the crash image.
fn verdict(
    alloc: Global,
    graph: &Graph,
    persists: &[u32],
    marks: &[bool],
    first: &[u64],
    found: &[u64],
) -> Result<Verdict, OutOfMemory>
    requires persists { persists.now ≡ persists_of graph.now.events }
    requires marks { length marks.now ≡ length graph.now.events }
    requires same { length first.now ≡ length found.now }
    requires within { LieIn graph.now.events (length found.now) }
    requires least { IsLeastSettled graph.now.mode graph.now.events (crash_of first.now found.now) (set_of marks.now) }
    ensures yes { IfOk result (SaysYes graph.now.mode graph.now.events (crash_of first.now found.now)) }
    ensures no { IfOk result (SaysNo graph.now.mode graph.now.events (crash_of first.now found.now)) }
    ensures word { IfOk result (NamesWord graph.now.mode graph.now.events (crash_of first.now found.now)) }
{
    let image = image_of(alloc, graph.events(), marks, first)?;
    match first_difference(&image, found) {
        None => Ok(Verdict::Yes(numbers_of(alloc, persists, marks)?)),
        Some(place) => {
            let word = PERSISTENT_BASE + 8 * place as u64;
            let rank = rank(graph.events(), marks, word);
            Ok(Verdict::No { word, rank })
        }
    }
}

/// Whether a crash image may have come from a run: the words `initial` before it and `crash` after it, by
/// their places in the persistent region, and the persists that were `joined`, by their numbers.
///
/// `Yes` comes exactly where a judged set exists, with the least one; `No` exactly where none exists, with the first
/// word at which the least settled set's image differs, and how many persists to it that set holds
/// (docs/judge.md).
pub fn judge(
    alloc: Global,
    graph: &Graph,
    joined: &Numbers,
    initial: &[u64],
    crash: &[u64],
) -> Result<Verdict, OutOfMemory>
    requires joined { joined.now ≡ numbers_of graph.now.events (is_joined graph.now.events) }
    requires same { length initial.now ≡ length crash.now }
    requires within { LieIn graph.now.events (length crash.now) }
    ensures { IfOk result (IsVerdict graph.now.mode graph.now.events (crash_of initial.now crash.now)) }
{
    let persists = persists_of(alloc, graph.events())?;
    let marks = settled(alloc, graph, &persists, joined.as_slice(), initial, crash)?;
    verdict(alloc, graph, &persists, &marks, initial, crash)
}
