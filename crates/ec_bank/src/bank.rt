// A product of a chunk by a constant, kept with its promise.
ghost use Rattle.std.specs.Prelude.{◌≡◌, ◌<◌, ℕ, length, slice_index};
ghost use Rattle.ec_field.specs.Field.{IsByte, product};
ghost use Rattle.ec_field.specs.Chunk.{element, IsChunk};
ghost use Rattle.ec_field.specs.Code.{combined_element};
ghost use Rattle.ec_bank.specs.Products.{IsProduct};

use crate::rows::RowTimes;
use ec_field::Chunk;
use std::marker::Model;

/// What may multiply chunks by constants: every function from a byte and a chunk to a chunk.
pub trait Multiply: Drop {
    /// The condition of a bank: it may be called on everything and gives the product by its first argument.
    ghost multiplies: { Self → Type 0 };

    /// The chunk times `a`, element by element.
    fn multiply(&self, a: u8, c: &Chunk) -> Chunk
        requires { multiplies self.now }
        ensures { IsProduct a c.now result };
}

impl<F: Fn(u8, &Chunk) -> Chunk> Multiply for F {
    ghost multiplies = { λ f. F.IsAlwaysCallable f
        × ((a : ℕ) (c : _) (r : _) → IsByte a → F.post f a c r → IsProduct a c.now r) };

    fn multiply(&self, a: u8, c: &Chunk) -> Chunk {
        self(a, c)
    }
}

/// A function that multiplies a chunk by a constant. That it does is kept with the value.
#[derive(Drop)]
pub struct Bank<F: Multiply> {
    f: F,
}

impl<F: Multiply> Model for Bank<F> {
    ghost Value = { F };

    ghost view = { λ bank. bank.f };

    ghost invariant = { λ bank. F.multiplies bank.f };
}

impl<F: Multiply> Bank<F> {
    /// Keeps a function that meets the condition.
    pub fn new(f: F) -> Bank<F>
        requires { F.multiplies f }
        ensures { result ≡ f }
    {
        Bank { f }
    }

    /// The chunk times `a`, element by element.
    pub fn times(&self, a: u8, c: &Chunk) -> Chunk
        ensures chunk { IsChunk result }
        ensures elements { (e : ℕ) → e < 512 → element result e ≡ product a (element c.now e) }
    {
        self.f.multiply(a, c)
    }
}

impl<F: Multiply> RowTimes for Bank<F> {
    #[tactic(auto, using(ec_field::proofs::Sums::sums))]
    fn row(&self, coeffs: &[u8], chunks: &[Chunk]) -> Chunk {
        let mut sum = Chunk::zero();
        for j in 0..coeffs.len() {
            sum = sum.plus(&self.times(coeffs[j], &chunks[j]));
        }
        sum
    }
}
