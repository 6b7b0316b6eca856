// Levels, first persists and the edges that brought them, in one pass over the edges.
ghost use Rattle.std.specs.Prelude.{◌≡◌, ◌+◌, ◌<◌, ◌^◌, length, replicate, slice_index, IfOk};
ghost use Rattle.strand_path.specs.Building.{own_level, AreOwn, raised};
ghost use Rattle.strand_path.specs.Tracing.{top, is_better, firsts_after, vias_after, AreTraces};

use crate::checking::is_persist_at;
use std::alloc::Global;
use strand_base::OutOfMemory;
use strand_events::Event;
use strand_order::{Edge, Graph};

/// For each event its level, the first persist that leads to it (of the level below its own for a persist, and of its
/// own for another event; 0 where there is none), and one more than the event by which that one does, or 0.
#[derive(Drop)]
pub(crate) struct Traces {
    pub(crate) levels: Vec<u32>,
    pub(crate) firsts: Vec<u32>,
    pub(crate) vias: Vec<u32>,
}

fn own_level(events: &[Event], k: usize) -> u32
    requires { k < length events.now }
    ensures { result ≡ own_level events.now k }
{
    if is_persist_at(events, k) { 1 } else { 0 }
}

fn own_levels(alloc: Global, events: &[Event]) -> Result<Vec<u32>, OutOfMemory>
    ensures { IfOk result (λ levels. AreOwn events.now (length events.now) levels.items) }
{
    let mut levels = Vec::new(alloc);
    for k in 0..events.len() {
        levels.push(own_level(events, k))?;
    }
    Ok(levels)
}

// So many zeros.
pub(crate) fn zeros(alloc: Global, n: usize) -> Result<Vec<u32>, OutOfMemory>
    ensures { IfOk result (λ zeros. zeros.items ≡ replicate n 0) }
{
    Ok(vec![in alloc; 0; n]?)
}

fn top(events: &[Event], firsts: &[u32], i: u32) -> u32
    requires i { i < length events.now }
    requires long { length firsts.now ≡ length events.now }
    ensures { result ≡ top events.now firsts.now i }
{
    if events[i as usize].is_persist() {
        i
    } else {
        firsts[i as usize]
    }
}

// Whether the edge brings its later event a higher level, or an earlier persist of the same.
fn is_better(events: &[Event], levels: &[u32], firsts: &[u32], edge: Edge) -> bool
    requires before { edge.before < length events.now }
    requires after { edge.after < length events.now }
    requires levels { length levels.now ≡ length events.now }
    requires firsts { length firsts.now ≡ length events.now }
    requires small { slice_index levels.now edge.before + 1 < 2 ^ 32 }
    ensures { result ≡ is_better events.now levels.now firsts.now edge }
{
    let from = levels[edge.before as usize];
    let level = levels[edge.after as usize];
    let least = from + own_level(events, edge.after as usize);
    from > 0
        && (level < least
            || (level == least && top(events, firsts, edge.before) < firsts[edge.after as usize]))
}

// Follows an edge.
fn follow(traces: &mut Traces, events: &[Event], edge: Edge)
    requires before { edge.before < length events.now }
    requires after { edge.after < length events.now }
    requires levels { length traces.old.levels.items ≡ length events.now }
    requires firsts { length traces.old.firsts.items ≡ length events.now }
    requires vias { length traces.old.vias.items ≡ length events.now }
    requires small { slice_index traces.old.levels.items edge.before + 1 < 2 ^ 32 }
    requires small_before { edge.before + 1 < 2 ^ 32 }
    ensures levels { traces.new.levels.items ≡ raised events.now edge traces.old.levels.items }
    ensures firsts { traces.new.firsts.items
        ≡ firsts_after events.now traces.old.levels.items traces.old.firsts.items edge }
    ensures vias { traces.new.vias.items
        ≡ vias_after events.now traces.old.levels.items traces.old.firsts.items traces.old.vias.items edge }
{
    let least = traces.levels[edge.before as usize] + own_level(events, edge.after as usize);
    if is_better(events, &traces.levels, &traces.firsts, edge) {
        let first = top(events, &traces.firsts, edge.before);
        traces.firsts[edge.after as usize] = first;
        traces.vias[edge.after as usize] = edge.before + 1;
    }
    let level = traces.levels[edge.after as usize].max(least);
    traces.levels[edge.after as usize] = level;
}

/// One pass over the edges. An edge's earlier event has all that is kept of it by the time that the edge is
/// followed, since edges are listed by the later one.
pub(crate) fn traces_of(alloc: Global, graph: &Graph) -> Result<Traces, OutOfMemory>
    ensures { IfOk result (AreTraces graph.now.mode graph.now.events) }
{
    let events = graph.events();
    let mut traces = Traces {
        levels: own_levels(alloc, events)?,
        firsts: zeros(alloc, events.len())?,
        vias: zeros(alloc, events.len())?,
    };
    for edge in graph.edges() {
        follow(&mut traces, events, *edge);
    }
    Ok(traces)
}
