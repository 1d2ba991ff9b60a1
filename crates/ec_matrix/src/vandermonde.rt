// The row of a brick.
ghost use Rattle.std.specs.Prelude.{◌≡◌, ◌+◌, ◌<◌, ◌≤◌, ℕ, slice_index};
ghost use Rattle.ec_field.specs.Code.{plain_entry};
ghost use Rattle.ec_matrix.specs.Inverse.{IsByteRow};
ghost use Rattle.ec_matrix.specs.Polynomial.{basis, master, value};

use crate::polynomial::{basis, master, value};
use ec_field::mul;

/// The points of bricks 0 to 15.
const FIRST_POINTS: [u8; 16] = [1, 2, 3, 4, 5, 6, 7, 8, 9, 10, 11, 12, 13, 14, 15, 16];

/// The powers of `b` + 1, the highest first.
fn plain(k: u8, b: u8) -> [u8; 16]
    requires k { k ≤ 16 }
    requires b { b < 31 }
    ensures entries { (j : ℕ) → j < k → slice_index result j ≡ plain_entry k b j }
    ensures zeros { (j : ℕ) → k ≤ j → slice_index result j ≡ 0 }
{
    let mut row = [0; 16];
    let mut power = 1;
    for j in (0..usize::from(k)).rev() {
        row[j] = power;
        power = mul(b + 1, power);
    }
    row
}

/// The values at `b` + 1 of the polynomials that are 1 at one of the points 1 to `k` and 0 at the others.
fn systematic(k: u8, b: u8) -> [u8; 16]
    requires k { k ≤ 16 }
    requires b { b < 31 }
    ensures entries { (i : ℕ) → i < k → slice_index result i ≡ value k (basis k (master (λ m. m + 1) k) (i + 1)) (b + 1) }
    ensures zeros { (j : ℕ) → k ≤ j → slice_index result j ≡ 0 }
{
    let mut row = [0; 16];
    let master = master(k, &FIRST_POINTS);
    for i in 0..k {
        row[usize::from(i)] = value(k, &basis(k, &master, i + 1), b + 1);
    }
    row
}

/// The row of brick `b`, of `k` entries, and 0 from there on. With algorithm 0 it is the powers of `b` + 1, the highest
/// first. With algorithm 1 it is what gives that row from the rows of algorithm 0 of bricks 0 to `k` - 1.
pub fn row(k: u8, b: u8, algorithm: u8) -> [u8; 16]
    requires least { 2 ≤ k }
    requires most { k ≤ 16 }
    requires brick { b < 31 }
    requires algorithm { algorithm ≤ 1 }
    ensures row { IsByteRow k algorithm b (λ j. slice_index result j) }
    ensures zeros { (j : ℕ) → k ≤ j → slice_index result j ≡ 0 }

    // There is no other row of this brick.
    ensures only { (other : ℕ → ℕ) → IsByteRow k algorithm b other → (j : ℕ) → j < k → other j ≡ slice_index result j }
{
    if algorithm == 0 {
        plain(k, b)
    } else {
        systematic(k, b)
    }
}
