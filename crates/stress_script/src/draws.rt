//! The generator of numbers, and what is drawn of it for more than one kind of line.

ghost use Rattle.std.specs.Prelude.{◌≡◌, ◌<◌, ◌≤◌, ◌%◌, ◌^◌, IfOk};
ghost use Rattle.stress_script.specs.Generator.{draw, draw_to, draw_data};

use apex_types::{OutOfMemory, Token};
use std::alloc::Global;
use std::marker::Model;

/// A linear congruential generator, by its state.
#[derive(Drop)]
pub struct Draws {
    state: u32,
}

impl Model for Draws {
    ghost use Rattle.std.specs.Prelude.{ℕ};

    ghost Value = { ℕ };

    ghost view = { λ d. d.state };
}

impl Draws {
    /// The generator at the start of a seed.
    pub fn new(seed: u32) -> Draws
        ensures { result ≡ seed % 2 ^ 31 }
    {
        Draws {
            state: seed % (1 << 31),
        }
    }

    /// The next number below `k`.
    #[tactic(auto, unfolding(crate::specs::Generator::draw))]
    pub fn below(&mut self, k: u32) -> u32
        requires { 0 < k }
        ensures value { draw k self.old ≡ (result, self.new) }
        ensures below { result < k }
    {
        let next = (1_103_515_245 * self.state as u64 + 12_345) % (1 << 31);
        self.state = next as u32;
        self.state / 65_536 % k
    }

    /// The next number of 1 to `most`.
    #[tactic(auto, unfolding(crate::specs::Generator::draw_to))]
    pub fn one_to(&mut self, most: u32) -> u32
        requires some { 0 < most }
        requires few { most ≤ 4096 }
        ensures value { draw_to most self.old ≡ (result, self.new) }
        ensures within { result ≤ most }
    {
        1 + self.below(most)
    }

    /// The next data, of 1 to `most` bytes that are all the same.
    #[tactic(auto, unfolding(crate::specs::Generator::draw_data))]
    pub fn data(&mut self, alloc: Global, most: u32) -> Result<Token, OutOfMemory>
        requires some { 0 < most }
        requires few { most ≤ 64 }
        ensures { IfOk result (λ bytes. draw_data most self.old ≡ (bytes, self.new)) }
    {
        let count = self.one_to(most);
        let byte = self.below(256) as u8;
        let bytes = vec![in alloc; byte; count as usize]?;
        Token::read(alloc, &bytes)
    }
}
