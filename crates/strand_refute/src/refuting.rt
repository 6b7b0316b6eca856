ghost use Rattle.std.specs.Prelude.{◌≡◌, ◌^◌, ◌<◌, length, IfOk, MatchOption};
ghost use Rattle.strand_events.specs.Numbers.{numbers_of};
ghost use Rattle.strand_events.specs.Order.{is_joined, set_of};
ghost use Rattle.strand_events.specs.Places.{LieIn};
ghost use Rattle.strand_judge.specs.Judged.{IsLeastSettled};
ghost use Rattle.strand_judge.specs.Words.{crash_of};
ghost use Rattle.strand_refute.specs.Checked.{IsCertified, SaysRefuted, SaysNone, SaysPossible};
ghost use Rattle.strand_refute.specs.Work.{Explains, IsNoneTo, IsLastTo};

use crate::certificate::{Certificate, Ending};
use crate::gathering::{need_forced, need_joined, serve};
use crate::work::{Work, no_work};
use std::alloc::Global;
use strand_base::{Numbers, OutOfMemory};
use strand_events::Event;
use strand_judge::{Verdict, ends_of, gather, judge, persists_of};
use strand_order::Graph;

/// Whether a crash image may have come from a run, with the reason.
#[derive(Debug, Drop)]
pub enum Refutation {
    /// It may not: a certificate that is accepted.
    Refuted(Certificate),
    /// It may: the numbers of the persists of the least set that gives it, ascending.
    Possible(Numbers),
}

// The events of the least settled set and of the paths to it, with the reasons.
fn needed(
    alloc: Global,
    graph: &Graph,
    joined: &Numbers,
    first: &[u64],
    found: &[u64],
) -> Result<Work, OutOfMemory>
    requires joined { joined.now ≡ numbers_of graph.now.events (is_joined graph.now.events) }
    requires same { length first.now ≡ length found.now }
    requires within { LieIn graph.now.events (length found.now) }
    ensures least { IfOk result (λ w. IsLeastSettled graph.now.mode graph.now.events
        (crash_of first.now found.now) (set_of w.marks.items)) }
    ensures long { IfOk result (λ w. length w.marks.items ≡ length graph.now.events) }
    ensures explained { IfOk result (Explains graph.now.mode graph.now.events
        (crash_of first.now found.now)) }
{
    let events = graph.events();
    let persists = persists_of(alloc, events)?;
    let offered = gather(alloc, events, found)?;
    let ends = ends_of(alloc, graph)?;
    let mut work = no_work(alloc, events.len())?;
    need_joined(events, &persists, joined.as_slice(), &mut work)?;
    need_forced(events, &offered, first, found, &mut work)?;
    let mut done = 0;
    while done < work.list.len() {
        let j = work.list[done];
        serve(graph, &ends, &offered, found, j, &mut work)?;
        done += 1;
    }
    Ok(work)
}

// The last marked persist to a word, if there is one.
fn last_to(events: &[Event], marks: &[bool], word: u64) -> Option<u32>
    requires small { length events.now < 2 ^ 32 }
    requires marks { length marks.now ≡ length events.now }
    ensures { MatchOption result (IsNoneTo events.now (set_of marks.now) word)
        (IsLastTo events.now (set_of marks.now) word) }
{
    let mut k = events.len();
    while k > 0 {
        k -= 1;
        if events[k].is_persist() && marks[k] && events[k].word() == word {
            return Some(k as u32);
        }
    }
    None
}

/// Whether a crash image may have come from a run: the words `initial` before it and `crash` after it, by their places
/// in the persistent region, and the persists that were `joined`, by their numbers.
///
/// `Refuted` comes exactly where no judged set exists, with a certificate that `check` accepts and that has at most one
/// line for each event before its last, so that it is within a certificate's limits for as many events as a run may
/// have; `Possible` exactly where one exists, with the least one.
pub fn refute(
    alloc: Global,
    graph: &Graph,
    joined: &Numbers,
    initial: &[u64],
    crash: &[u64],
) -> Result<Refutation, OutOfMemory>
    requires joined { joined.now ≡ numbers_of graph.now.events (is_joined graph.now.events) }
    requires same { length initial.now ≡ length crash.now }
    requires within { LieIn graph.now.events (length crash.now) }
    ensures refuted { IfOk result (SaysRefuted graph.now.mode graph.now.events
        (crash_of initial.now crash.now)) }
    ensures none { IfOk result (SaysNone graph.now.mode graph.now.events
        (crash_of initial.now crash.now)) }
    ensures possible { IfOk result (SaysPossible graph.now.mode graph.now.events
        (crash_of initial.now crash.now)) }
{
    match judge(alloc, graph, joined, initial, crash)? {
        Verdict::Yes(list) => Ok(Refutation::Possible(list)),
        Verdict::No { word, .. } => {
            let Work { marks, lines, .. } = needed(alloc, graph, joined, initial, crash)?;
            let last = last_to(graph.events(), &marks, word);
            Ok(Refutation::Refuted(Certificate {
                forced: lines,
                ending: Some(Ending { word, last }),
            }))
        }
    }
}
