// Kernels that multiply chunks, kept with what they promise.
//
// Promised: a bank gives products, and sums of products, element by element, for every function that met its condition
// when the bank was made; what is said of a bank rests on that condition alone. Not promised: how fast a function is.
// No call allocates.
#![tactic(auto)]

mod bank;
mod plain;
mod row_bank;
mod rows;

pub use bank::{Bank, Multiply};
pub use plain::times_plain;
pub use row_bank::{Combine, RowBank};
pub use rows::RowTimes;

#[cfg(test)]
mod tests;
