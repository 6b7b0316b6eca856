// What an instruction does to the memory and the trace.
ghost use Rattle.std.specs.Prelude.{◌≡◌, ◌<◌, ◌≤◌, ◌++◌, [], ◌∷◌, IfSome, length, vec_len, vec_capacity, if◌then◌else◌};
ghost use Rattle.strand_base.specs.declared.limits.TheConstants.{CORE_ROOM};
ghost use Rattle.strand_exec.specs.Memory.{Memory, extents_of};
ghost use Rattle.strand_exec.specs.Plan.{IsPlaced};
ghost use Rattle.strand_events.specs.Fits.{EventFits};
ghost use Rattle.strand_rules.specs.Visible.{event_of, memory_after, loaded, with_event};
ghost use Rattle.strand_rules.specs.Cycle.{unmarked};
ghost use Rattle.strand_rules.specs.Looking.{persists_unmarked};
ghost use Rattle.strand_rules.specs.Pipeline.{overwritten};

use strand_base::PERSISTENT_BASE;
use strand_events::{Event, Trace};
use strand_exec::{FlatMemory, Plan, merged};

/// The event that core n's instruction with this plan makes, if any. `before` is the word that a store
/// finds, and isn't used else.
pub fn made_event(core: u32, plan: Plan, before: u64) -> Option<Event>
    requires { core < CORE_ROOM }
    ensures event { (memory : Memory) → before ≡ overwritten memory plan
        → result ≡ event_of core memory plan }
    ensures fits { IfSome result EventFits }
{
    match plan {
        Plan::Load { word } => Some(Event::Load { core, word }),
        Plan::Store { word, mask, bits } => Some(Event::Store {
            core,
            word,
            value: merged(before, mask, bits),
            persist: word >= PERSISTENT_BASE,
        }),
        Plan::Barrier => Some(Event::Barrier { core }),
        Plan::NewStrand => Some(Event::NewStrand { core }),
        Plan::Join => Some(Event::Join { core }),
        Plan::Out { value } => Some(Event::Out { core, value }),
        Plan::Plain | Plan::Halt | Plan::Trap(_) => None,
    }
}

// The word that a store finds.
pub(crate) fn overwritten(memory: &FlatMemory, plan: Plan) -> u64
    requires { IsPlaced (extents_of memory.now) plan }
    ensures { result ≡ overwritten memory.now plan }
{
    match plan {
        Plan::Store { word, .. } => memory.read(word),
        _ => 0,
    }
}

// The instruction, as far as it changes the memory; the word that a load finds.
pub(crate) fn act(memory: &mut FlatMemory, plan: Plan) -> u64
    requires { IsPlaced (extents_of memory.old) plan }
    ensures memory { memory.new ≡ memory_after memory.old plan }
    ensures extents { extents_of memory.new ≡ extents_of memory.old }
    ensures loaded { result ≡ loaded memory.old plan }
{
    match plan {
        Plan::Load { word } => memory.read(word),
        Plan::Store { word, mask, bits } => {
            let value = merged(memory.read(word), mask, bits);
            memory.write(word, value);
            0
        }
        _ => 0,
    }
}

// Puts the event at the trace's end, if there is one, without a mark.
pub(crate) fn note(
    trace: &mut Trace,
    buffered: &mut Vec<bool>,
    durable: &mut Vec<bool>,
    persisted: &mut Vec<bool>,
    event: Option<Event>,
)
    requires room { length trace.old.events < trace.old.room }
    requires fits { IfSome event EventFits }
    requires buffered { vec_len buffered.old < vec_capacity buffered.old }
    requires durable { vec_len durable.old < vec_capacity durable.old }
    requires persisted { vec_len persisted.old < vec_capacity persisted.old }
    ensures events { trace.new.events ≡ with_event trace.old.events event }
    ensures room { trace.new.room ≡ trace.old.room }
    ensures buffered { buffered.new.items ≡ unmarked buffered.old.items event }
    ensures buffered_room { vec_capacity buffered.new ≡ vec_capacity buffered.old }
    ensures durable { durable.new.items ≡ unmarked durable.old.items event }
    ensures durable_room { vec_capacity durable.new ≡ vec_capacity durable.old }
    ensures persisted { persisted.new.items ≡ persists_unmarked persisted.old.items event }
    ensures persisted_room { vec_capacity persisted.new ≡ vec_capacity persisted.old }
{
    let Some(event) = event else {
        return;
    };
    trace.push(event);
    buffered.push_reserved(false);
    durable.push_reserved(false);
    if event.is_persist() {
        persisted.push_reserved(false);
    }
}
