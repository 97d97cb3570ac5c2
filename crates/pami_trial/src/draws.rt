//! The numbers that a seed draws.

ghost use Rattle.std.specs.Prelude.{◌≡◌, ◌<◌};
ghost use Rattle.pami_trial.specs.Draws.{first_state, next_state, given_below};

/// A linear congruential sequence modulo 65,536, from whose states the upper twelve bits are drawn.
#[derive(Debug, Drop)]
pub struct Draws {
    pub state: u16,
}

impl Draws {
    /// The sequence of a seed, before its first draw.
    pub fn new(seed: u32) -> Draws
        ensures { result.state ≡ first_state seed }
    {
        Draws {
            state: (seed % 65_536) as u16,
        }
    }

    /// The next draw below this count.
    pub fn below(&mut self, count: u32) -> u32
        requires { 0 < count }
        ensures state { self.new.state ≡ next_state self.old.state }
        ensures drawn { result ≡ given_below count self.new.state }
    {
        self.state = ((25_173 * u32::from(self.state) + 13_849) % 65_536) as u16;
        u32::from(self.state / 16) % count
    }
}
