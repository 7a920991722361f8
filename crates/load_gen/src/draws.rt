//! Numbers drawn one after another from a linear congruential generator.

ghost use Rattle.std.specs.Prelude.{◌≡◌, ◌<◌};

/// A row of draws, which its first state settles.
#[derive(Clone, Copy, Debug)]
pub struct Draws {
    pub state: u32,
}

impl Draws {
    ghost use Rattle.load_gen.specs.Script.{next, drawn};

    /// Draws a number below `k`.
    #[tactic(auto, unfolding(crate::specs::Script::next, crate::specs::Script::drawn))]
    pub fn below(&mut self, k: u32) -> u32
        requires { 0 < k }
        ensures state { self.new.state ≡ next self.old.state }
        ensures drawn { result ≡ drawn k self.new.state }
        ensures below { result < k }
    {
        self.state = self
            .state
            .wrapping_mul(1_664_525)
            .wrapping_add(1_013_904_223);
        self.state / 65_536 % k
    }
}
