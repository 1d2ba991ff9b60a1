ghost use Rattle.std.specs.Prelude.{◌≡◌, length};

use super::*;
use ec_field::{Chunk, element};
use std::cell::Cell;

fn times<F: Multiply>(f: F, a: u8, c: &Chunk) -> Chunk
    requires { F.multiplies f }
{
    Bank::new(f).times(a, c)
}

fn row<F: Multiply>(f: F, coeffs: &[u8], chunks: &[Chunk]) -> Chunk
    requires kernel { F.multiplies f }
    requires lengths { length coeffs.now ≡ length chunks.now }
{
    Bank::new(f).row(coeffs, chunks)
}

fn combined<G: Combine>(g: G, coeffs: &[u8], chunks: &[Chunk]) -> Chunk
    requires kernel { G.combines g }
    requires lengths { length coeffs.now ≡ length chunks.now }
{
    RowBank::new(g).row(coeffs, chunks)
}

fn fused<F: Multiply>(f: F, coeffs: &[u8], chunks: &[Chunk]) -> Chunk
    requires kernel { F.multiplies f }
    requires lengths { length coeffs.now ≡ length chunks.now }
{
    let bank = Bank::new(f);
    combined(|a: &[u8], c: &[Chunk]| bank.row(a, c), coeffs, chunks)
}

/// 3 times FF is 1C, and 2 times 80 is 1D, by the polynomial 0x11D.
#[test]
fn multiplies_each_element(rt: HostRuntime) {
    let ones = Chunk::from_elements(&[0xFF; 512]);
    let high = Chunk::from_elements(&[0x80; 512]);
    assert_eq!(rt; element(&times(times_plain, 3, &ones), 0), 0x1C);
    assert_eq!(rt;
        element(&times(|a: u8, c: &Chunk| times_plain(a, c), 3, &ones), 511),
        0x1C
    );
    let sum = 0x1C ^ 0x1D;
    assert_eq!(rt; element(&row(times_plain, &[3, 2], &[ones, high]), 9), sum);
    assert_eq!(rt;
        element(&fused(times_plain, &[3, 2], &[ones, high]), 511),
        sum
    );
    assert_eq!(rt; element(&row(times_plain, &[], &[]), 0), 0);
}

/// A kernel may keep a state of its own, as a count of its calls.
#[test]
fn keeps_a_function_with_a_state(rt: HostRuntime) {
    let ones = Chunk::from_elements(&[0xFF; 512]);
    let calls = Cell::new(0u32);
    let counting = |a: u8, c: &Chunk| {
        calls.set(calls.get().wrapping_add(1));
        times_plain(a, c)
    };
    assert_eq!(rt; element(&row(counting, &[3, 0], &[ones, ones]), 0), 0x1C);
    assert_eq!(rt; calls.get(), 2);
}
