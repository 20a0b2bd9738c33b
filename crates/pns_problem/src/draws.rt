//! Numbers drawn one after another.
ghost use Rattle.std.specs.Prelude.{◌≡◌, ◌<◌, ◌%◌};
ghost use Rattle.text_rules.specs.problem_rules.Draws.{first_state, next_state};

/// The state of the draws, below 65537.
#[derive(Drop)]
pub(crate) struct Draws {
    pub(crate) state: u32,
}

impl Draws {
    pub(crate) fn from_number(number: u64) -> Draws
        ensures { result.state ≡ first_state number }
    {
        Draws {
            state: (number % 65536) as u32,
        }
    }

    /// The next draw, a number below `limit`.
    #[tactic(auto, unfolding(crate::specs::Unfolded::next_state))]
    pub(crate) fn draw(&mut self, limit: u32) -> u32
        requires { 0 < limit }
        ensures advanced { self.new.state ≡ next_state self.old.state }
        ensures drawn { result ≡ next_state self.old.state % limit }
        ensures small { result < limit }
    {
        let next = (75 * self.state as u64 + 74) % 65537;
        self.state = next as u32;
        self.state % limit
    }
}
