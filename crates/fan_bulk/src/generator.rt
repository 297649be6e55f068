// The generator of numbers.
ghost use Rattle.std.specs.Prelude.{◌≡◌, ◌<◌};
ghost use Rattle.fan_bulk.specs.Generator.{drawn, stepped};

// What the state is multiplied by, and what is added to it.
const FACTOR: u64 = 6_364_136_223_846_793_005;

const ADDEND: u64 = 1_442_695_040_888_963_407;

/// The generator of numbers that docs/FORMATS.md describes at `bulk`: the same seed gives the same numbers.
#[derive(Clone, Copy, Debug, PartialEq, Eq)]
pub struct Generator {
    /// Its state, which starts as the seed.
    pub state: u64,
}

impl Generator {
    /// Draws a number below a limit, by the high bits of the next state.
    #[tactic(auto, using(std::proofs::lemmas::Nat::mod_below), unfolding(crate::specs::Generator::stepped, crate::specs::Generator::drawn))]
    pub fn draw(&mut self, limit: u64) -> u64
        requires { 0 < limit }
        ensures drawn { result ≡ drawn limit self.new.state }
        ensures below { result < limit }
        ensures state { self.new.state ≡ stepped self.old.state }
    {
        self.state = self.state.wrapping_mul(FACTOR).wrapping_add(ADDEND);
        (self.state >> 33) % limit
    }
}
