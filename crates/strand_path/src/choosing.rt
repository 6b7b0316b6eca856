ghost use Rattle.std.specs.Prelude.{IfOk};
ghost use Rattle.strand_path.specs.Checked.{IsChecked};
ghost use Rattle.strand_path.specs.Chosen.{IsChosenChain};

use crate::checking::greatest;
use crate::numbering::numbers_of;
use crate::path::Path;
use crate::picking::members;
use crate::tracing::traces_of;
use crate::walking::{copied, route_of};
use std::alloc::Global;
use strand_base::OutOfMemory;
use strand_order::Graph;

/// The chosen chain of a graph, with a route and levels that `check_path` accepts (docs/path.md).
pub fn longest(alloc: Global, graph: &Graph) -> Result<Path, OutOfMemory>
    ensures chosen { IfOk result (λ path. IsChosenChain graph.now.mode graph.now.events path.chain) }
    ensures checked { IfOk result (IsChecked graph.now.mode graph.now.events) }
{
    let traces = traces_of(alloc, graph)?;
    let top = greatest(graph.events(), &traces.levels);
    let members = members(alloc, graph, &traces, top)?;
    Ok(Path {
        chain: numbers_of(alloc, graph.events(), &members)?,
        route: route_of(alloc, graph, &traces, &members)?,
        levels: copied(alloc, &traces.levels)?,
    })
}
