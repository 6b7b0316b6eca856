// Members of the chosen chain, from the last to the first.
ghost use Rattle.std.specs.Prelude.{◌≡◌, ◌<◌, ◌^◌, length, IfOk};
ghost use Rattle.strand_path.specs.Checked.{greatest_below};
ghost use Rattle.strand_path.specs.Picking.{is_of_level, IsFirst, IsSome, ArePicked};
ghost use Rattle.strand_path.specs.Tracing.{AreTraces};

use crate::checking::is_persist_at;
use crate::tracing::{Traces, zeros};
use std::alloc::Global;
use strand_base::OutOfMemory;
use strand_events::Event;
use strand_order::Graph;

fn is_of_level(events: &[Event], levels: &[u32], level: u32, k: usize) -> bool
    requires k { k < length events.now }
    requires long { length levels.now ≡ length events.now }
    ensures { result ≡ is_of_level events.now levels.now level k }
{
    is_persist_at(events, k) && levels[k] == level
}

// The first persist of a level.
fn first_of(events: &[Event], levels: &[u32], level: u32) -> u32
    requires small { length events.now < 2 ^ 32 }
    requires long { length levels.now ≡ length events.now }
    requires some_ { IsSome (length events.now) (is_of_level events.now levels.now level) }
    ensures { IsFirst (is_of_level events.now levels.now level) result }
{
    for k in 0..events.len() {
        if is_of_level(events, levels, level, k) {
            return k as u32;
        }
    }
    0
}

/// The events of the chosen chain, by their levels.
pub(crate) fn members(
    alloc: Global,
    graph: &Graph,
    traces: &Traces,
    top: u32,
) -> Result<Vec<u32>, OutOfMemory>
    requires traces { AreTraces graph.now.mode graph.now.events traces.now }
    requires top { top ≡ greatest_below graph.now.events traces.now.levels.items (length graph.now.events) }
    ensures { IfOk result (λ chain. ArePicked graph.now.mode graph.now.events traces.now.levels.items chain.items 0) }
{
    let mut chain = zeros(alloc, top as usize)?;
    if top == 0 {
        return Ok(chain);
    }
    let mut n = top as usize - 1;
    chain[n] = first_of(graph.events(), &traces.levels, top);
    while n > 0 {
        let member = traces.firsts[chain[n] as usize];
        n -= 1;
        chain[n] = member;
    }
    Ok(chain)
}
