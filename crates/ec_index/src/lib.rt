// The index of a brick: which of its records are dirty, so that a healer need not look at all of them.
//
// Promised: it is a set of gfids, from which the next member above any gfid is found without a walk over those below
// it. Only putting one in takes memory, and where there is none the set is as before.
#![tactic(auto)]

mod index;
#[cfg(test)]
mod tests;

pub use index::Index;
