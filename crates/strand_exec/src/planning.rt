ghost use Rattle.std.specs.Prelude.{◌≡◌, ◌<◌};
ghost use Rattle.strand_exec.specs.Decoded.{IsSound};
ghost use Rattle.strand_exec.specs.Effects.{HasRegister, IsAligned};
ghost use Rattle.strand_exec.specs.Plan.{IsPlaced, IsStored, accessing, asked, effect_of, effect_of_instr, fetched, jumping, plan_of, trapping};

use crate::accesses::{is_data, load_bytes, store_bits, store_bytes, store_mask};
use crate::core_state::CoreState;
use crate::effect::Effect;
use crate::life::{Life, Trap};
use crate::planned::Plan;
use crate::rows::row;
use crate::sizes::Sizes;
use strand_base::CODE_BASE;
use strand_isa::{Instr, decode};

/// The code word at a pc.
fn fetched(code: &[u32], pc: u64) -> Option<u32>
    ensures { result ≡ fetched code.now pc }
{
    if pc < CODE_BASE || pc % 4 != 0 {
        return None;
    }
    code.get(((pc - CODE_BASE) / 4) as usize).copied()
}

/// A jump to a place, or its trap.
fn jumping(target: u64, effect: Effect) -> Effect
    ensures { result ≡ jumping target effect }
{
    if target % 4 == 0 {
        effect
    } else {
        Effect::Traps(Trap::Target { at: target })
    }
}

/// An access of `size` bytes, or its trap.
fn accessing(sizes: Sizes, size: u64, address: u64, effect: Effect) -> Effect
    requires { 0 < size }
    ensures { result ≡ accessing sizes size address effect }
{
    if address % size != 0 {
        Effect::Traps(Trap::Misaligned { at: address })
    } else if is_data(sizes, address) {
        effect
    } else {
        Effect::Traps(Trap::Access { at: address })
    }
}

/// An effect, or the trap that stands in its way.
fn trapping(sizes: Sizes, effect: Effect) -> Effect
    requires { HasRegister effect }
    ensures value { result ≡ trapping sizes effect }
    ensures register { HasRegister result }
    ensures aligned { IsAligned sizes result }
{
    match effect {
        Effect::Jump {
            rd: _,
            link: _,
            target,
        } => jumping(target, effect),
        Effect::Goto { target } => jumping(target, effect),
        Effect::LoadFrom { op, rd: _, address } => accessing(
            sizes,
            load_bytes(op),
            address,
            effect,
        ),
        Effect::StoreTo {
            op,
            address,
            value: _,
        } => accessing(sizes, store_bytes(op), address, effect),
        Effect::Call { number, value } => match number {
            0 => Effect::Halt,
            1 => Effect::Out { value },
            _ => Effect::Traps(Trap::Call { number }),
        },
        _ => effect,
    }
}

/// The effect of an instruction, if a word is one, with all traps.
pub(crate) fn effect_of_instr(core: &CoreState, sizes: Sizes, instr: Option<Instr>) -> Effect
    requires { IsSound instr }
    ensures value { result ≡ effect_of_instr core.now sizes instr }
    ensures register { HasRegister result }
    ensures aligned { IsAligned sizes result }
{
    match instr {
        None => Effect::Traps(Trap::Illegal),
        Some(i) => trapping(sizes, row(core, &i)),
    }
}

/// The effect of the instruction at pc, with all traps.
#[tactic(auto, unfolding(crate::specs::Plan::effect_of))]
pub(crate) fn effect(core: &CoreState, code: &[u32], sizes: Sizes) -> Effect
    ensures value { result ≡ effect_of core.now code.now sizes }
    ensures register { HasRegister result }
    ensures aligned { IsAligned sizes result }
{
    match fetched(code, core.pc) {
        None => Effect::Traps(Trap::Fetch),
        Some(word) => effect_of_instr(core, sizes, decode(word)),
    }
}

/// What the next instruction of a running core asks of the world. Takes no memory and constant time.
///
/// The traps are tried in this order: Fetch, Illegal, Target, Misaligned, Access, Call.
#[tactic(auto, unfolding(crate::specs::Plan::plan_of))]
pub fn plan(core: &CoreState, code: &[u32], sizes: Sizes) -> Plan
    requires { core.now.life ≡ Life.Running }
    ensures table { result ≡ plan_of core.now code.now sizes }
    ensures placed { IsPlaced sizes result }
    ensures stored { IsStored (effect_of core.now code.now sizes) result }
{
    asked(effect(core, code, sizes), sizes)
}

/// What an effect asks of the world, whose access was tried in regions of these sizes.
pub fn asked(effect: Effect, sizes: Sizes) -> Plan
    requires { IsAligned sizes effect }
    ensures asks { result ≡ asked effect }
    ensures placed { IsPlaced sizes result }
    ensures stored { IsStored effect result }
{
    match effect {
        Effect::LoadFrom {
            op: _,
            rd: _,
            address,
        } => Plan::Load {
            word: address / 8 * 8,
        },
        Effect::StoreTo { op, address, value } => Plan::Store {
            word: address / 8 * 8,
            mask: store_mask(op, address),
            bits: store_bits(op, address, value),
        },
        Effect::Barrier => Plan::Barrier,
        Effect::BeginStrand => Plan::NewStrand,
        Effect::Join => Plan::Join,
        Effect::Out { value } => Plan::Out { value },
        Effect::Halt => Plan::Halt,
        Effect::Traps(trap) => Plan::Trap(trap),
        _ => Plan::Plain,
    }
}
