//! A generator of numbers that look drawn at random, the same for a seed wherever it runs.
//!
//! Promises the stated sequence: the linear congruential one of Knuth's MMIX (The Art of Computer
//! Programming, volume 2, 3.3.4), of each state its upper 32 bits. It is for tests and trials, and for no
//! secret.
#![tactic(auto)]

ghost use Rattle.std.specs.Prelude.{◌≡◌};
ghost use Rattle.lcg.specs.Draws.{drawn_at, next_state};

use std::marker::Model;

#[cfg(test)]
mod tests;

const MULTIPLIER: u64 = 6_364_136_223_846_793_005;

const INCREMENT: u64 = 1_442_695_040_888_963_407;

/// A generator. It is seen as its state.
#[derive(Drop)]
pub struct Lcg {
    state: u64,
}

impl Model for Lcg {
    ghost use Rattle.std.specs.Prelude.{ℕ};

    ghost Value = { ℕ };

    ghost view = { λ g. g.state };
}

impl Lcg {
    /// One that begins with this state.
    pub fn new(seed: u64) -> Lcg
        ensures { result ≡ seed }
    {
        Lcg { state: seed }
    }

    /// The next number. `O(1)`, and takes no memory.
    pub fn next(&mut self) -> u32
        ensures drawn { result ≡ drawn_at self.new }
        ensures state { self.new ≡ next_state self.old }
    {
        self.state = self.state.wrapping_mul(MULTIPLIER).wrapping_add(INCREMENT);
        (self.state >> 32) as u32
    }
}
