//! Numbers that are drawn one after the other.

ghost use Rattle.std.specs.Prelude.{◌≡◌, ◌<◌, ◌^◌};
ghost use Rattle.scenario_maker.specs.Draws.{draw};

use std::marker::Model;

/// The state of the draws, below 2 ^ 31.
#[derive(Drop)]
pub struct Draws {
    state: u32,
}

impl Model for Draws {
    ghost use Rattle.std.specs.Prelude.{ℕ, ◌<◌, ◌^◌};

    ghost Value = { ℕ };

    ghost view = { λ d. d.state };

    ghost invariant = { λ d. d.state < 2 ^ 31 };
}

impl Draws {
    /// The draws that a seed gives.
    pub fn new(seed: u32) -> Draws
        requires { seed < 2 ^ 31 }
        ensures { result ≡ seed }
    {
        Draws { state: seed }
    }

    /// A number below k.
    #[tactic(auto, unfolding(crate::specs::Draws::draw))]
    pub fn draw(&mut self, k: u32) -> u32
        requires { 0 < k }
        ensures answer { result ≡ (draw k self.old).0 }
        ensures state { self.new ≡ (draw k self.old).1 }
        ensures below { result < k }
    {
        let next = (u64::from(self.state) * 1_103_515_245 + 12345) % 2_147_483_648;
        self.state = next as u32;
        self.state / 65536 % k
    }
}
