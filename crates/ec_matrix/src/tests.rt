ghost use Rattle.std.specs.Prelude.{◌≡◌, ◌≤◌, length};
ghost use Rattle.ec_attr.specs.Bricks.{bricks};

use super::{inverse, row};
use ec_attr::BrickSet;
use ec_field::{add, mul};

/// Whether the product of two matrices of `k` rows and columns is the identity.
fn is_identity(k: u8, a: &[[u8; 16]; 16], b: &[[u8; 16]; 16]) -> bool
    requires { k ≤ 16 }
{
    for m in 0..usize::from(k) {
        for j in 0..usize::from(k) {
            let mut sum = 0;
            for i in 0..usize::from(k) {
                sum = add(sum, mul(a[m][i], b[i][j]));
            }
            if sum != u8::from(m == j) {
                return false;
            }
        }
    }
    true
}

/// Whether the rows of a set of `k` bricks and their inverse are each other's inverse.
fn is_inverse(k: u8, which: &BrickSet, algorithm: u8) -> bool
    requires least { 2 ≤ k }
    requires most { k ≤ 16 }
    requires bricks { length (bricks which.now) ≡ k }
    requires algorithm { algorithm ≤ 1 }
{
    let mut rows = [[0; 16]; 16];
    let mut count = 0;
    for b in 0..31 {
        if which.has(b) && count < 16 {
            rows[count] = row(k, b, algorithm);
            count += 1;
        }
    }
    let cells = inverse(k, which, algorithm).cells;
    is_identity(k, &cells, &rows) && is_identity(k, &rows, &cells)
}

/// The set of the bricks from `first` to before `end`.
fn bricks_from(first: u8, end: u8) -> BrickSet
    requires { end ≤ 31 }
{
    let mut set = BrickSet::empty();
    for b in first..end {
        set = set.plus(b);
    }
    set
}

/// The first four entries of a row.
fn four(row: [u8; 16]) -> [u8; 4] {
    [row[0], row[1], row[2], row[3]]
}

#[test]
fn rows_of_small_volumes(rt: HostRuntime) {
    assert_eq!(rt; four(row(2, 0, 0)), [1, 1, 0, 0]);
    assert_eq!(rt; four(row(2, 2, 0)), [3, 1, 0, 0]);
    assert_eq!(rt; four(row(4, 5, 0)), [0x78, 0x14, 6, 1]);
    assert_eq!(rt; four(row(2, 0, 1)), [1, 0, 0, 0]);
    assert_eq!(rt; four(row(2, 1, 1)), [0, 1, 0, 0]);
    assert_eq!(rt; four(row(2, 2, 1)), [0xF4, 0xF5, 0, 0]);
}

#[test]
fn the_first_systematic_rows_are_the_identity(rt: HostRuntime) {
    for k in 2..17 {
        for b in 0..k {
            let row = row(k, b, 1);
            for j in 0..16 {
                assert_eq!(rt; row[usize::from(j)], u8::from(b == j));
            }
        }
    }
}

#[test]
fn each_set_of_four_of_six(rt: HostRuntime) {
    let mut sets = 0u8;
    for bits in 0..64u8 {
        let mut set = BrickSet::empty();
        for b in 0..6 {
            if bits >> b & 1 == 1 {
                set = set.plus(b);
            }
        }
        if set.len() == 4 {
            assert!(rt; is_inverse(4, &set, 0) && is_inverse(4, &set, 1));
            sets = sets.wrapping_add(1);
        }
    }
    assert_eq!(rt; sets, 15);
}

#[test]
fn sets_of_sixteen_of_thirty_one(rt: HostRuntime) {
    for first in [0, 7, 15] {
        let set = bricks_from(first, first + 16);
        assert_eq!(rt; set.len(), 16);
        assert!(rt; is_inverse(16, &set, 0) && is_inverse(16, &set, 1));
    }
}
