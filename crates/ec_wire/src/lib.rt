// What clients ask of bricks and bricks reply, the messages in flight, what a script can order, and the log of a run
// with its text.
//
// Promised: a message has the next number, from 1 on, and is in flight until it is taken; the lowest in flight, of all
// or between a client and a brick, is found without a walk over the others. The text of each entry and answer is that
// of `specs/Entries` and `specs/Answers`. A copy is equal to what it was made of. Where there is no memory nothing has
// changed, but for a text that words are added to: a part of them may stand there.
#![tactic(auto)]

mod answer;
mod answers_text;
mod calls_text;
mod entries_text;
mod entry;
mod event;
mod lists;
mod message;
mod op;
mod phase;
mod places;
mod replies_text;
mod reply;
mod request;
mod requests_text;
#[cfg(test)]
mod tests;
mod wire;
mod words;

pub use answer::{Answer, Listing, StripeList};
pub use answers_text::answer_text;
pub use calls_text::push_op;
pub use entries_text::{entry_text, line};
pub use entry::{Entry, Log};
pub use event::{Event, Which};
pub use lists::ItemList;
pub use message::{Body, Message};
pub use op::Op;
pub use phase::{Phase, phase_of, phase_word};
pub use reply::{GfidList, Reply};
pub use request::{ChunkList, Request};
pub use wire::Wire;
pub use words::{kind_word, push_bricks, push_numbers, push_word};
