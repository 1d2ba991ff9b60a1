// The inverse of the rows of a set of bricks.
ghost use Rattle.std.specs.Prelude.{◌≡◌, ◌+◌, ◌<◌, ◌≤◌, ℕ, List, length, nat_eq, slice_index, if◌then◌else◌};
ghost use Rattle.ec_attr.specs.Bricks.{bricks};
ghost use Rattle.ec_matrix.specs.Inverse.{IsInverse, cell};

use crate::polynomial::{basis, master, values};
use ec_attr::BrickSet;

/// A matrix of at most 16 rows and columns, row by row.
#[derive(Clone, Copy, Debug, PartialEq, Eq)]
pub struct Rows {
    pub cells: [[u8; 16]; 16],
}

/// The points of the bricks of a set, each the brick's number + 1, in rising order.
fn points(which: &BrickSet) -> [u8; 16]
    requires { length (bricks which.now) ≤ 16 }
    ensures { (i : ℕ) → i < length (bricks which.now) → slice_index result i ≡ slice_index (bricks which.now) i + 1 }
{
    let mut points = [0; 16];
    let mut count = 0;
    let mut from = 0;
    while let Some(b) = which.next_from(from) {
        points[count] = b + 1;
        count += 1;
        from = b + 1;
    }
    points
}

/// Writes an entry of a row.
fn set_entry(row: &mut [u8; 16], i: usize, x: u8)
    requires { i < 16 }
    ensures { (m : ℕ) → slice_index row.new m ≡ (if nat_eq m i then x else slice_index row.old m) }
{
    row[i] = x;
}

/// Writes a column of a matrix.
fn set_column(cells: &mut [[u8; 16]; 16], i: usize, column: &[u8; 16])
    requires { i < 16 }
    ensures { (j m : ℕ) → j < 16 → cell cells.new j m ≡ (if nat_eq m i then slice_index column.now j else cell cells.old j m) }
{
    for j in 0..16usize {
        set_entry(&mut cells[j], i, column[j]);
    }
}

/// The inverse of the rows of `k` bricks, these in rising order.
pub fn inverse(k: u8, which: &BrickSet, algorithm: u8) -> Rows
    requires least { 2 ≤ k }
    requires most { k ≤ 16 }
    requires bricks { length (bricks which.now) ≡ k }
    requires algorithm { algorithm ≤ 1 }
    ensures { IsInverse k algorithm which.now result.cells }
{
    let points = points(which);
    let master = master(k, &points);
    let mut cells = [[0; 16]; 16];
    for i in 0..usize::from(k) {
        let basis = basis(k, &master, points[i]);
        let column = if algorithm == 0 {
            basis
        } else {
            values(k, &basis)
        };
        set_column(&mut cells, i, &column);
    }
    Rows { cells }
}
