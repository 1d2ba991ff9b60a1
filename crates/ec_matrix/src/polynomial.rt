// Polynomials over the field, by their coefficients from the highest power down.
ghost use Rattle.std.specs.Prelude.{◌≡◌, ◌+◌, ◌<◌, ◌≤◌, ℕ, slice_index};
ghost use Rattle.ec_matrix.specs.Polynomial.{basis, master, quotient, times_root, value};

use ec_field::{add, mul, pow};

/// The value at `v` of the polynomial of `k` coefficients.
#[tactic(auto, using(crate::proofs::Values::values))]
pub fn value(k: u8, coefficients: &[u8; 16], v: u8) -> u8
    requires { k ≤ 16 }
    ensures { result ≡ value k (λ j. slice_index coefficients.now j) v }
{
    let mut sum = 0;
    for j in 0..usize::from(k) {
        sum = add(mul(v, sum), coefficients[j]);
    }
    sum
}

/// The values of a polynomial of `k` coefficients at 1 to `k`.
pub fn values(k: u8, coefficients: &[u8; 16]) -> [u8; 16]
    requires { k ≤ 16 }
    ensures { (j : ℕ) → j < k → slice_index result j ≡ value k (λ i. slice_index coefficients.now i) (j + 1) }
{
    let mut values = [0; 16];
    for j in 0..k {
        values[usize::from(j)] = value(k, coefficients, j + 1);
    }
    values
}

/// Multiplies a polynomial of at most 16 coefficients by x - `r`.
fn multiply_by_root(coefficients: &mut [u8; 17], r: u8)
    ensures { (j : ℕ) → j < 17 → slice_index coefficients.new j ≡ times_root (λ i. slice_index coefficients.old i) r j }
{
    let mut before = 0;
    for j in 0..17usize {
        let here = coefficients[j];
        coefficients[j] = add(here, mul(r, before));
        before = here;
    }
}

/// The polynomial of `k` + 1 coefficients whose roots are the first `k` points.
pub fn master(k: u8, points: &[u8; 16]) -> [u8; 17]
    requires { k ≤ 16 }
    ensures { (j : ℕ) → j < 17 → slice_index result j ≡ master (λ i. slice_index points.now i) k j }
{
    let mut coefficients = [0; 17];
    coefficients[0] = 1;
    for i in 0..usize::from(k) {
        multiply_by_root(&mut coefficients, points[i]);
    }
    coefficients
}

/// The quotient by x - `r` of a polynomial of `k` + 1 coefficients.
fn quotient(k: u8, coefficients: &[u8; 17], r: u8) -> [u8; 16]
    requires { k ≤ 16 }
    ensures { (j : ℕ) → j < k → slice_index result j ≡ quotient (λ i. slice_index coefficients.now i) r j }
{
    let mut quotient = [0; 16];
    let mut value = 0;
    for j in 0..usize::from(k) {
        value = add(mul(r, value), coefficients[j]);
        quotient[j] = value;
    }
    quotient
}

/// The polynomial of `k` coefficients that is 1 at the root `r` of a polynomial of `k` + 1 coefficients, and 0 at its
/// other roots.
pub fn basis(k: u8, coefficients: &[u8; 17], r: u8) -> [u8; 16]
    requires { k ≤ 16 }
    ensures { (j : ℕ) → j < k → slice_index result j ≡ basis k (λ i. slice_index coefficients.now i) r j }
{
    let mut basis = quotient(k, coefficients, r);
    let scale = pow(value(k, &basis, r), 254);
    for j in 0..usize::from(k) {
        basis[j] = mul(scale, basis[j]);
    }
    basis
}
