// The clients of a volume: which call each runs, and the steps that calls decide, over the cluster of its bricks.
//
// Promised: what the log says of calls is what the clients hold. An unanswered call is in its client's slot, and stands
// for its own entries in the log; every call's own entries keep the conduct and are by its table; a reply is handed to a
// call only where the call waits for the request that it answers; a Granted that comes after its ask was released is
// answered by a Release.
#![tactic(auto)]

mod beginning;
mod begins;
mod calling;
mod clients;
mod going;
mod hearing;
mod laws;
mod leaving;
mod options;
mod sending;
mod slots;

pub use beginning::{new_clients, set_next_gfid};
pub use begins::Begins;
pub use calling::{begin, die};
pub use clients::{Clients, Running};
pub use hearing::{hear_awaited, hear_idle, is_awaited};
pub use laws::{brick_law, reply_law};
pub use leaving::leave;
pub use options::Options;
