ghost use Rattle.std.specs.Prelude.{◌≡◌, IfOk, IfSome};
ghost use Rattle.std.specs.Option.{option_map};
ghost use Rattle.strand_isa.specs.Decode.{instr_of};
ghost use Rattle.strand_exec.specs.Decoded.{IsSound};
ghost use Rattle.strand_exec.specs.Effects.{HasRegister, IsAligned};
ghost use Rattle.strand_exec.specs.Plan.{effect_of, fetched};

use crate::core_state::CoreState;
use crate::effect::Effect;
use crate::life::Trap;
use crate::planning::effect_of_instr;
use crate::sizes::Sizes;
use std::alloc::Global;
use std::marker::Model;
use strand_base::{CODE_BASE, OutOfMemory};
use strand_isa::{Instr, decode};

/// Code words, each decoded once. Contracts see the list of the words.
#[derive(Drop)]
pub struct Code {
    words: Vec<u32>,
    instrs: Vec<Option<Instr>>,
}

impl Model for Code {
    ghost use Rattle.std.specs.Prelude.{ℕ, List};
    ghost use Rattle.strand_exec.specs.Decoded.{AreDecoded};

    ghost Value = { List ℕ };

    ghost view = { λ c. c.words.items };

    ghost invariant = { λ c. AreDecoded c.words.items c.instrs.items };
}

impl Code {
    /// A copy of these words.
    pub fn new(alloc: Global, words: &[u32]) -> Result<Code, OutOfMemory>
        ensures { IfOk result (λ code. code ≡ words.now) }
    {
        let mut instrs = Vec::with_capacity(alloc, words.len())?;
        for word in words {
            instrs.push(decode(*word))?;
        }
        Ok(Code {
            words: words.to_vec(alloc)?,
            instrs,
        })
    }

    /// The words.
    pub fn words(&self) -> &[u32]
        ensures { result.now ≡ self.now }
    {
        &self.words
    }

    // The instruction at a pc, if a word stands there and is one.
    fn instr_at(&self, pc: u64) -> Option<Option<Instr>>
        ensures value { result ≡ option_map instr_of (fetched self.now pc) }
        ensures sound { IfSome result IsSound }
    {
        if pc < CODE_BASE || pc % 4 != 0 {
            return None;
        }
        self.instrs.get(((pc - CODE_BASE) / 4) as usize).copied()
    }

    /// What the next instruction of a running core does, with all traps: what `plan` and `finish` say of
    /// it, without decoding its word again. Takes no memory and constant time.
    #[tactic(auto, unfolding(crate::specs::Plan::effect_of))]
    pub fn effect(&self, core: &CoreState, sizes: Sizes) -> Effect
        ensures value { result ≡ effect_of core.now self.now sizes }
        ensures register { HasRegister result }
        ensures aligned { IsAligned sizes result }
    {
        match self.instr_at(core.pc) {
            None => Effect::Traps(Trap::Fetch),
            Some(instr) => effect_of_instr(core, sizes, instr),
        }
    }
}
