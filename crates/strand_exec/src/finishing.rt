ghost use Rattle.std.specs.Prelude.{◌≡◌, ◌<◌};
ghost use Rattle.strand_exec.specs.Effects.{HasRegister};
ghost use Rattle.strand_exec.specs.Core.{moved_to, with_reg};
ghost use Rattle.strand_exec.specs.Plan.{after, finished};

use crate::accesses::load_value;
use crate::core_state::CoreState;
use crate::effect::Effect;
use crate::life::Life;
use crate::planning::effect;
use crate::rows::next_pc;
use crate::sizes::Sizes;

/// Gives a register a value and goes to a place.
fn advance(core: &mut CoreState, rd: u8, value: u64, pc: u64)
    requires { rd < 32 }
    ensures { core.new ≡ moved_to pc (with_reg rd value core.old) }
{
    core.set_register(rd, value);
    core.pc = pc;
}

/// Does the next instruction of a running core, as far as it changes the core. `loaded` is the word at the access
/// of a load, and isn't used else. Takes no memory and constant time.
#[tactic(auto, unfolding(crate::specs::Plan::finished))]
pub fn finish(core: &mut CoreState, code: &[u32], sizes: Sizes, loaded: u64)
    requires { core.old.life ≡ Life.Running }
    ensures { core.new ≡ finished core.old code.now sizes loaded }
{
    let effect = effect(core, code, sizes);
    apply(core, effect, loaded);
}

/// Does what an effect does to the core. `loaded` is the word at the access of a load, and isn't used else.
pub fn apply(core: &mut CoreState, effect: Effect, loaded: u64)
    requires { HasRegister effect }
    ensures { core.new ≡ after core.old loaded effect }
{
    let next = next_pc(core);
    match effect {
        Effect::Write { rd, value } => advance(core, rd, value, next),
        Effect::Jump { rd, link, target } => advance(core, rd, link, target),
        Effect::Goto { target } => core.pc = target,
        Effect::LoadFrom { op, rd, address } => {
            advance(core, rd, load_value(op, loaded, address), next);
        }
        Effect::Halt => core.life = Life::Halted,
        Effect::Traps(trap) => core.life = Life::Trapped(trap),
        _ => core.pc = next,
    }
}
