ghost use Rattle.std.specs.Prelude.{◌≡◌, ◌<◌};
ghost use Rattle.strand_base.specs.declared.limits.TheConstants.{MOST_CODE};
ghost use Rattle.strand_exec.specs.Core.{fresh, reg, with_reg};

use crate::life::Life;
use std::marker::Model;
use strand_base::CODE_BASE;

/// A core: its pc, its registers x0 to x31, of which x0 is always 0, and whether it runs.
#[derive(Clone, Copy, Debug, PartialEq, Eq)]
pub struct CoreState {
    /// The address of the next instruction.
    pub pc: u64,
    /// The values of x0 to x31.
    pub regs: [u64; 32],
    /// Whether the core runs.
    pub life: Life,
}

impl Model for CoreState {
    ghost use Rattle.std.specs.Prelude.{◌≡◌, slice_index};
    ghost use Rattle.strand_exec.specs.Core.{Core};

    ghost Value = { Core };

    ghost view = { λ c. record { pc = c.pc; regs = c.regs; life = c.life } };

    ghost invariant = { λ c. slice_index c.regs 0 ≡ 0 };

    ghost inverse = { λ c. record { pc = c.pc; regs = c.regs; life = c.life } };
}

impl CoreState {
    /// A core that begins at a code word: all registers are 0, and it runs.
    #[tactic(auto, unfolding(crate::specs::Core::fresh))]
    pub fn new(entry: u32) -> CoreState
        requires { entry < MOST_CODE }
        ensures { result ≡ fresh entry }
    {
        CoreState {
            pc: CODE_BASE + 4 * u64::from(entry),
            regs: [0; 32],
            life: Life::Running,
        }
    }

    /// The value of a register.
    pub(crate) fn register(&self, number: u8) -> u64
        requires { number < 32 }
        ensures { result ≡ reg self.now number }
    {
        self.regs[number as usize]
    }

    /// Gives a register a value; a write to x0 is dropped.
    pub(crate) fn set_register(&mut self, number: u8, value: u64)
        requires { number < 32 }
        ensures { self.new ≡ with_reg number value self.old }
    {
        if number != 0 {
            self.regs[number as usize] = value;
        }
    }
}
