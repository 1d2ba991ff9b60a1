// What comes of a step of a call.

use ec_wire::{Answer, ItemList, Request};

/// The requests of a step in the order of sending, each with the brick that it goes to; seen as their list.
pub type Sends = ItemList<(u8, Request)>;

/// Whether a call goes on waiting, or has its answer.
#[derive(Debug, Drop)]
pub enum Turn {
    Wait,
    Done(Answer),
}
