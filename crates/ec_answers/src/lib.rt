// What bricks answered to one query: whether enough of them are alike, and which brick to ask next.
//
// Promised: `group` gives the good group among the bricks that answered, wherever there is one, with its sinks and its
// head, and else tells how many were alike; `choose` gives the brick that comes first. Neither takes memory.
#![tactic(auto)]

mod answers;
mod choice;
mod grouped;
mod grouping;
mod heads;
mod laws;
mod sets;
#[cfg(test)]
mod tests;

pub use answers::{Answers, Given};
pub use choice::choose;
pub use grouped::{Group, Grouped};
pub use grouping::group;
pub use laws::good_group_laws;
