//! The numbers from which a load is drawn.
ghost use Rattle.std.specs.Prelude.{◌≡◌};
ghost use Rattle.load_maker.specs.Load.{drawn, stepped};

/// The multiplier of the generator, a linear congruential one of 64 bits (Knuth's).
const MULTIPLIER: u64 = 6_364_136_223_846_793_005;

/// And its increment.
const INCREMENT: u64 = 1_442_695_040_888_963_407;

/// The generator. Its state tells all that it will give.
#[derive(Clone, Copy)]
pub(crate) struct Generator {
    pub state: u64,
}

impl Generator {
    /// The next number, below 2^31.
    #[tactic(auto, unfolding(crate::specs::Load::stepped, crate::specs::Load::drawn), using(crate::proofs::DrawLemmas::stepped_is))]
    pub(crate) fn draw(&mut self) -> u32
        ensures state { self.new.state ≡ stepped self.old.state }
        ensures number { result ≡ drawn self.old.state }
    {
        self.state = self.state.wrapping_mul(MULTIPLIER).wrapping_add(INCREMENT);
        (self.state >> 33) as u32
    }
}
