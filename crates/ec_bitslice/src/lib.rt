// Kernels on chunks as bit planes, over `std::simd` lanes: a product of all 512 elements of a chunk by a constant is
// a fixed pattern of sums of its planes.
//
// Promised: each kernel is the plain product and sum of the field on each element, and `pack` and `unpack` are inverse
// to each other. No call allocates, and each is total under its conditions. Not promised: anything of speed.
#![tactic(auto)]

mod column;
mod group;
mod kernels;
mod packing;
mod plain;

pub use kernels::{dot, mul_const, muladd};
pub use packing::{pack, unpack};
pub use plain::mul_plain;

#[cfg(test)]
mod tests;
