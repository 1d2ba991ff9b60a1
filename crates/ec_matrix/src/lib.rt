// The rows of the code, and the inverse of the rows of any set of bricks that suffices to read.
//
// Promised: `row` is the one row of a brick, with either algorithm, and `inverse` never fails: for each k from 2 to 16
// and any k bricks the rows and what it gives are each other's inverse. No call allocates and there is no table.
#![tactic(auto)]

mod interpolation;
mod polynomial;
#[cfg(test)]
mod tests;
mod vandermonde;

pub use interpolation::{Rows, inverse};
pub use vandermonde::row;
