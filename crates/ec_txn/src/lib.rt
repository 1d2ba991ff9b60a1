// What all calls share: what they are to the history of a run and to the one who drives them, and the one round by which
// calls on one gfid run their tables.
//
// Promised: a `Round` sends, hears, gives up and answers by its plan's table, and its own entries keep the conduct,
// whatever replies come in whatever order. `Plan` tells how a call is added.
#![tactic(auto)]

mod ballot;
mod call;
mod ctx;
mod known;
mod opening;
mod plan;
mod reading;
mod replies;
mod round;
mod stage;
mod turn;

pub use ballot::{Ballot, count_serving, is_within};
pub use call::{Call, Conduct};
pub use ctx::Ctx;
pub use known::{Held, Known, Pending, Place};
pub use opening::{Opening, after_lock, come_to};
pub use plan::{Plan, Work};
pub use reading::{Reading, reading_law};
pub use replies::Replies;
pub use round::Round;
pub use stage::Next;
pub use turn::{Sends, Turn};
