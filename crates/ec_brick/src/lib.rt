// One brick: the requests that it executes over its store, whole or not at all, and its opening, stopping and starting.
#![tactic(auto)]

mod accepted;
mod brick;
mod bytes;
mod chunks;
mod effects;
mod execute;
mod forget;
mod gfids;
mod guarded;
mod heads;
mod laws;
mod opening;
mod put;
mod root;
mod row;
mod seen;
mod start_fault;
mod stop;
mod table;
mod tear;
mod walk;
mod work;

pub use brick::Brick;
pub use bytes::bytes_in;
pub use effects::Effects;
pub use laws::known_laws;
pub use start_fault::StartFault;
