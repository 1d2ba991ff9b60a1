// The code of a stripe at a brick, and the stripe of its codes.
ghost use Rattle.std.specs.Prelude.{◌≡◌, ℕ, ◌+◌, ◌<◌, ◌≤◌, List, length, slice_index};
ghost use Rattle.ec_field.specs.Chunk.{element, IsChunk};
ghost use Rattle.ec_field.specs.Code.{IsCode, IsStripe, combined_element};
ghost use Rattle.ec_attr.specs.Bricks.{bricks};
ghost use Rattle.ec_stripe.specs.Codes.{AreCodes};

use ec_attr::{BrickSet, Geometry};
use ec_bank::RowTimes;
use ec_field::Chunk;
use ec_matrix::{Rows, inverse, row};
use std::marker::Model;

/// The sum of chunks, each times the coefficient at its place.
fn times_row<T: RowTimes>(t: &T, coefficients: &[u8; 16], chunks: &[Chunk]) -> Chunk
    requires { length chunks.now ≤ 16 }
    ensures chunk { IsChunk result }
    ensures elements { (e : ℕ) → e < 512
        → element result e ≡ combined_element (length chunks.now) (λ j. slice_index coefficients.now j) chunks.now e }
{
    let coefficients = &coefficients[..chunks.len()];
    t.row(coefficients, chunks)
}

/// Brick `b`'s chunk of a stripe, which has K chunks.
pub fn encode<T: RowTimes>(t: &T, g: &Geometry, b: u8, stripe: &[Chunk]) -> Chunk
    requires stripe { length stripe.now + g.now.r ≡ g.now.n }
    requires brick { b < g.now.n }
    ensures chunk { IsChunk result }
    ensures code { IsCode (length stripe.now) g.now.algorithm b stripe.now result }
{
    times_row(t, &row(g.k(), b, g.algorithm), stripe)
}

/// The inverse of the rows of K bricks, for as many stripes as they gave pieces of.
#[derive(Drop)]
pub struct Decoder {
    algorithm: u8,
    which: BrickSet,
    rows: Rows,
}

impl Model for Decoder {
    ghost use Rattle.std.specs.Prelude.{◌≤◌, length};
    ghost use Rattle.ec_attr.specs.Bricks.{bricks};
    ghost use Rattle.ec_matrix.specs.Inverse.{IsInverse};
    ghost use Rattle.ec_stripe.specs.Codes.{Purpose};

    ghost Value = { Purpose };

    ghost view = { λ d. record { algorithm = d.algorithm; bits = d.which } };

    ghost invariant = { λ d. (length (bricks d.which) ≤ 16) × IsInverse (length (bricks d.which)) d.algorithm d.which d.rows.cells };
}

impl Decoder {
    /// Inverts the rows of K bricks.
    pub fn new(g: &Geometry, which: &BrickSet) -> Decoder
        requires { length (bricks which.now) + g.now.r ≡ g.now.n }
        ensures algorithm { result.algorithm ≡ g.now.algorithm }
        ensures bricks { result.bits ≡ which.now }
    {
        Decoder {
            algorithm: g.algorithm,
            which: *which,
            rows: inverse(g.k(), which, g.algorithm),
        }
    }

    /// The stripe whose codes at these bricks the pieces are, in rising order of the bricks.
    pub fn decode<T: RowTimes>(&self, t: &T, pieces: &[Chunk], out: &mut [Chunk])
        requires pieces { length pieces.now ≡ length (bricks self.now.bits) }
        requires places { length out.old ≡ length (bricks self.now.bits) }
        ensures stripe { IsStripe (length pieces.now) out.new }

        // The pieces are the codes of that stripe, and of no other.
        ensures codes { AreCodes self.now.algorithm self.now.bits out.new pieces.now }
        ensures only { (stripe : List (List ℕ)) → IsStripe (length pieces.now) stripe
            → AreCodes self.now.algorithm self.now.bits stripe pieces.now → out.new ≡ stripe }
    {
        for j in 0..pieces.len() {
            out[j] = times_row(t, &self.rows.cells[j], pieces);
        }
    }
}

/// The stripe whose codes at K bricks the pieces are, in rising order of the bricks.
pub fn decode<T: RowTimes>(
    t: &T,
    g: &Geometry,
    which: &BrickSet,
    pieces: &[Chunk],
    out: &mut [Chunk],
)
    requires bricks { length (bricks which.now) + g.now.r ≡ g.now.n }
    requires pieces { length pieces.now ≡ length (bricks which.now) }
    requires places { length out.old ≡ length (bricks which.now) }
    ensures stripe { IsStripe (length pieces.now) out.new }

    // The pieces are the codes of that stripe, and of no other.
    ensures codes { AreCodes g.now.algorithm which.now out.new pieces.now }
    ensures only { (stripe : List (List ℕ)) → IsStripe (length pieces.now) stripe
        → AreCodes g.now.algorithm which.now stripe pieces.now → out.new ≡ stripe }
{
    Decoder::new(g, which).decode(t, pieces, out);
}
