// Stripes: how a stripe becomes one piece a brick, and any K pieces the stripe again; which stripes hold which bytes.
//
// Promised, for every geometry and every type that multiplies rows by chunks: `encode` gives the code of a stripe at a
// brick, and decoding gives the one stripe whose codes at the bricks of a set the pieces are. Not promised: that pieces
// which are no codes of one stripe are found out; any K pieces decode to some stripe. No call allocates.
#![tactic(auto)]

mod code;
mod extent;
mod stripes;

pub use code::{Decoder, decode, encode};
pub use extent::Span;
pub use stripes::{fragment_len, span};

#[cfg(test)]
mod tests;
