// The calls that change a file's bytes. A write locks every brick for itself alone, puts the record's dirty number up,
// reads the stripes that it covers in part, writes the new ones coded, and commits. A truncate reads and writes the stripe
// in which the lesser of both sizes lies, where that is on no border, and cuts before it commits.
//
// Promised: what such a call sends, hears and answers is by its table (`specs/Write`, `specs/Truncate`), and keeps the
// conduct of a call; the chunks that it sends of a stripe are codes of one stripe, whose bytes are the call's, zeros past
// the old size and past a truncate's, and else what K bricks gave after the PreOp. Not promised here: what a whole run
// comes to.
#![tactic(auto)]

mod code;
mod fill;
mod members;
mod old;
mod place;
mod rows;
mod stage;
#[cfg(test)]
mod tests;
mod truncate;
mod write;

pub use stage::{TruncateStage, WriteStage};
pub use truncate::{Truncate, TruncateCall, begin_truncate};
pub use write::{Write, WriteCall, begin_write};
