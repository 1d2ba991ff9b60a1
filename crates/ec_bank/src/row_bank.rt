// A sum of products, kept with its promise.
ghost use Rattle.std.specs.Prelude.{◌≡◌, ◌<◌, ℕ, length, slice_index};
ghost use Rattle.ec_field.specs.Field.{IsByte};
ghost use Rattle.ec_field.specs.Chunk.{element, IsChunk};
ghost use Rattle.ec_field.specs.Code.{combined_element};
ghost use Rattle.ec_bank.specs.Products.{IsCombined};

use crate::rows::RowTimes;
use ec_field::Chunk;
use std::marker::Model;

/// What may multiply rows by chunks: every function from bytes and chunks to a chunk.
pub trait Combine: Drop {
    /// The condition of a bank: on equal lengths it may be called and gives the sum of the products.
    ghost combines: { Self → Type 0 };

    /// The sum of the chunks, each times the coefficient at its place.
    fn combine(&self, coeffs: &[u8], chunks: &[Chunk]) -> Chunk
        requires kept { combines self.now }
        requires lengths { length coeffs.now ≡ length chunks.now }
        ensures { IsCombined coeffs.now chunks.now result };
}

impl<G: Fn(&[u8], &[Chunk]) -> Chunk> Combine for G {
    ghost combines = { λ g. ((a : _) (c : _) → length a.now ≡ length c.now → G.pre g a c)
        × ((a : _) (c : _) (r : _) → length a.now ≡ length c.now → G.post g a c r → IsCombined a.now c.now r) };

    fn combine(&self, coeffs: &[u8], chunks: &[Chunk]) -> Chunk {
        self(coeffs, chunks)
    }
}

/// A function that multiplies a row by chunks. That it does is kept with the value.
#[derive(Drop)]
pub struct RowBank<G: Combine> {
    g: G,
}

impl<G: Combine> Model for RowBank<G> {
    ghost Value = { G };

    ghost view = { λ bank. bank.g };

    ghost invariant = { λ bank. G.combines bank.g };
}

impl<G: Combine> RowBank<G> {
    /// Keeps a function that meets the condition.
    pub fn new(g: G) -> RowBank<G>
        requires { G.combines g }
        ensures { result ≡ g }
    {
        RowBank { g }
    }
}

impl<G: Combine> RowTimes for RowBank<G> {
    fn row(&self, coeffs: &[u8], chunks: &[Chunk]) -> Chunk {
        self.g.combine(coeffs, chunks)
    }
}
