// Stripes of bytes that no kernel knows, and their codes.
ghost use Rattle.std.specs.Prelude.{◌≤◌};

use ec_attr::BrickSet;
use ec_bank::RowTimes;
use ec_field::Chunk;
use ec_matrix::{inverse, row};
use std::alloc::{AllocError, Global};

/// Stripes, the rows of all bricks and the inverse of the rows of the last k of them.
#[derive(Drop)]
pub struct Work {
    pub k: u8,
    pub n: u8,
    pub rows: Vec<Vec<u8>>,
    pub inverse: Vec<Vec<u8>>,
    pub stripes: Vec<Vec<Chunk>>,
}

/// A chunk of bytes that look random.
fn mixed(seed: u32) -> Chunk {
    let mut bytes = [0u8; 512];
    let mut x = seed;
    for b in bytes.iter_mut() {
        x = x.wrapping_mul(1_664_525).wrapping_add(1_013_904_223);
        *b = (x >> 24) as u8;
    }
    Chunk::from_array(bytes)
}

/// The first k entries of each row.
fn cut(alloc: Global, rows: &[[u8; 16]], k: u8) -> Result<Vec<Vec<u8>>, AllocError>
    requires { k ≤ 16 }
{
    let mut all = Vec::new(alloc);
    for row in rows {
        all.push(row[..usize::from(k)].to_vec(alloc)?)?;
    }
    Ok(all)
}

/// The rows times the chunks, where there are as many of these as entries in a row.
pub fn apply<T: RowTimes>(bank: &T, rows: &[Vec<u8>], chunks: &[Chunk], out: &mut [Chunk]) {
    for (row, to) in rows.iter().zip(out.iter_mut()) {
        if row.len() == chunks.len() {
            *to = bank.row(row, chunks);
        }
    }
}

/// Whether the rows times the chunks are these.
fn gives<T: RowTimes>(bank: &T, rows: &[Vec<u8>], chunks: &[Chunk], want: &[Chunk]) -> bool {
    let mut same = rows.len() == want.len();
    for (row, chunk) in rows.iter().zip(want.iter()) {
        same = same && row.len() == chunks.len() && bank.row(row, chunks) == *chunk;
    }
    same
}

/// Zeros to be written over, `count` chunks for each stripe.
pub fn blank(alloc: Global, stripes: usize, count: u8) -> Result<Vec<Vec<Chunk>>, AllocError> {
    let mut all = Vec::new(alloc);
    for _ in 0..stripes {
        let mut chunks = Vec::new(alloc);
        for _ in 0..count {
            chunks.push(Chunk::zero())?;
        }
        all.push(chunks)?;
    }
    Ok(all)
}

/// A number that each byte has a part in.
pub fn digest(stripes: &[Vec<Chunk>]) -> u32 {
    let mut sum = 0u32;
    for chunks in stripes {
        for c in chunks {
            for b in c.bytes() {
                sum = sum.wrapping_mul(16_777_619) ^ u32::from(*b);
            }
        }
    }
    sum
}

impl Work {
    /// `count` stripes of k chunks for n bricks.
    pub fn new(alloc: Global, k: u8, n: u8, count: u32) -> Result<Work, AllocError>
        requires least { 2 ≤ k }
        requires most { k ≤ 16 }
        requires order { k ≤ n }
        requires bricks { n ≤ 31 }
    {
        let mut rows = Vec::new(alloc);
        for b in 0..n {
            rows.push(row(k, b, 0)[..usize::from(k)].to_vec(alloc)?)?;
        }
        let mut which = BrickSet::empty();
        for b in n - k..n {
            which = which.plus(b);
        }
        let mut back = Vec::new(alloc);
        if which.len() == k {
            back = cut(alloc, &inverse(k, &which, 0).cells[..usize::from(k)], k)?;
        }
        let mut stripes = Vec::new(alloc);
        for s in 0..count {
            let mut stripe = Vec::new(alloc);
            for j in 0..k {
                stripe.push(mixed(s.wrapping_mul(97).wrapping_add(u32::from(j))))?;
            }
            stripes.push(stripe)?;
        }
        Ok(Work {
            k,
            n,
            rows,
            inverse: back,
            stripes,
        })
    }

    /// What the bricks hold of each stripe.
    pub fn encoded<T: RowTimes>(
        &self,
        alloc: Global,
        bank: &T,
    ) -> Result<Vec<Vec<Chunk>>, AllocError> {
        let mut all = blank(alloc, self.stripes.len(), self.n)?;
        for (stripe, out) in self.stripes.iter().zip(all.iter_mut()) {
            apply(
                bank,
                self.rows.as_slice(),
                stripe.as_slice(),
                out.as_mut_slice(),
            );
        }
        Ok(all)
    }

    /// Whether each stripe has these codes.
    pub fn encodes<T: RowTimes>(&self, bank: &T, codes: &[Vec<Chunk>]) -> bool {
        let mut same = codes.len() == self.stripes.len();
        for (stripe, code) in self.stripes.iter().zip(codes.iter()) {
            same = same
                && gives(
                    bank,
                    self.rows.as_slice(),
                    stripe.as_slice(),
                    code.as_slice(),
                );
        }
        same
    }

    /// Whether the last k codes give back each stripe.
    pub fn decodes<T: RowTimes>(&self, bank: &T, codes: &[Vec<Chunk>]) -> bool {
        let mut same = codes.len() == self.stripes.len();
        for (stripe, code) in self.stripes.iter().zip(codes.iter()) {
            let from = code.len().saturating_sub(usize::from(self.k));
            same = same
                && gives(
                    bank,
                    self.inverse.as_slice(),
                    &code[from..],
                    stripe.as_slice(),
                );
        }
        same
    }
}
