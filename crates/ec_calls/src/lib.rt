// The calls that clients make, as one type.
#![tactic(auto)]

mod any;
mod begins;

pub use any::{AnyCall, AnyStage, is_built};
