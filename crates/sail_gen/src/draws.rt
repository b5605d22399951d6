//! Draws of a linear congruential generator.
ghost use Rattle.std.specs.Prelude.{◌≡◌, ◌<◌, ◌%◌};
ghost use Rattle.sail_gen.specs.Draws.{next};

/// Draws from a state.
#[derive(Clone, Copy, Debug)]
pub struct Draws {
    /// The state, below 65,537.
    pub state: u32,
}

impl Draws {
    /// The next draw: a number below a bound.
    pub fn draw(&mut self, bound: u32) -> u32
        requires state { self.old.state < 65537 }
        requires bound { 0 < bound }
        ensures drawn { result ≡ next self.old.state % bound }
        ensures state { self.new.state ≡ next self.old.state }
    {
        self.state = (75 * self.state + 74) % 65537;
        self.state % bound
    }
}
