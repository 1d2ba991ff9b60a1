// The lock table of a brick: who holds a lock on an id, and who waits for one.
//
// The table is the list of the asks that stand, in the order of asking. An ask is granted exactly where no earlier one
// conflicts with it, so no ask has a mark of its own that could become wrong.
//
// Promised: no two conflicting grants stand; a queue is first come, first served; a grant stays until it leaves; whom
// a release or a cut lets in, and in which order; what each call answers. Where there is no memory the table is as
// before.
#![tactic(auto)]

mod ask;
mod table;
#[cfg(test)]
mod tests;
mod waiters;
mod walks;

pub use ask::Ask;
pub use table::{Asked, LockTable, lock_laws};
pub use waiters::{Waiter, WaiterList};
