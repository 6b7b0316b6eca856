ghost use Rattle.std.specs.Prelude.{◌≡◌, ◌<◌, ◌%◌};
ghost use Rattle.strand_gen.specs.Draws.{initial_state, next_state};

/// The numbers that a seed gives, one after the other.
#[derive(Drop)]
pub(crate) struct Draws {
    state: u64,
}

/// The next state: three times the state xor itself shifted.
#[tactic(auto, unfolding(crate::specs::Draws::next_state))]
fn next_state(state: u64) -> u64
    ensures { result ≡ next_state state }
{
    let x = state ^ (state << 13);
    let x = x ^ (x >> 7);
    x ^ (x << 17)
}

impl Draws {
    /// Nothing drawn yet. A state of 0 would stay 0, so seed 0 begins as 1.
    pub(crate) fn of_seed(seed: u64) -> Draws
        ensures { result.state ≡ initial_state seed }
    {
        Draws {
            state: if seed == 0 { 1 } else { seed },
        }
    }

    /// A number below `n`.
    pub(crate) fn draw(&mut self, n: u32) -> u32
        requires { 0 < n }
        ensures state { self.new.state ≡ next_state self.old.state }
        ensures value { result ≡ next_state self.old.state % n }
        ensures below { result < n }
    {
        self.state = next_state(self.state);
        (self.state % u64::from(n)) as u32
    }
}
