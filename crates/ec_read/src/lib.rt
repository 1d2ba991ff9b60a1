// The calls that read files.
#![tactic(auto)]

mod decoded;
mod range;
mod read;
mod rows;
mod stat;
#[cfg(test)]
mod tests;

pub use read::{Read, ReadCall, ReadStage, begin_read};
pub use stat::{Stat, StatCall, begin_stat};
