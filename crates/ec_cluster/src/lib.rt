// The bricks of a volume beside their stores, the messages in flight and the log, with each step that no client decides.
//
// Promised: the log grows by exactly the entries of a step, in order; where the stores tell what they keep these are a run,
// whatever net the cluster was read as before, and it is read as the net after them; a message is in flight from where it
// is sent until it is taken; a reply is fit to its request, and of its call, client and brick; and where there is no memory
// the log has the entries so far and the stores stand as these say.
#![tactic(auto)]

mod chunks;
mod cluster;
mod executing;
mod granting;
mod opening;
mod sending;
mod steps;
mod stopping;
mod tearing;
#[cfg(test)]
mod tests;

pub use cluster::Cluster;
