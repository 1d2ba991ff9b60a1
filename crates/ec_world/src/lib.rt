// The world of a volume: its bricks, messages and clients, moved by the events of a script.
//
// Promised of each event: it is refused exactly by the first of its causes, and then changes nothing; else the log goes on
// by the entries that it names, with those that follow, which are a run where the stores tell; the clients and the bricks
// are as the log says; and where there is no memory the log has the entries so far and the stores stand as these say.
// Settling takes the lowest message in flight, or where none is in flight lets a client give up a brick that it waits for in
// vain, until nothing of this is left; nobody waits then for a grant that an idle client keeps.
#![tactic(auto)]

mod address;
mod bricks;
mod clients;
mod cutting;
mod delivery;
mod named;
mod obeying;
mod refused;
mod report;
mod settling;
mod tearing;
mod unanswered;
mod via;
mod world;

pub use address::Address;
pub use bricks::{cut, execute, lose, lose_one, return_brick, stop};
pub use clients::{awaited, call, die, give_up, hear, leave_one, yield_grants};
pub use cutting::cut_all;
pub use delivery::deliver;
pub use named::{find, missing};
pub use obeying::obey;
pub use refused::Refused;
pub use settling::{Stuck, settle, until};
pub use tearing::tear;
pub use via::bad_via;
pub use world::{World, consistency_laws};
