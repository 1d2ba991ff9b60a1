// What a script orders.
ghost use Rattle.std.specs.Prelude.{◌≡◌, IfOk};

use crate::op::Op;
use crate::phase::Phase;
use std::alloc::AllocError;

/// A message in flight as a script names it: by its number, or as the lowest between a client and a brick.
#[derive(Clone, Copy, Debug, PartialEq, Eq)]
pub enum Which {
    Number(u64),
    ToBrick { client: u8, brick: u8 },
    ToClient { client: u8, brick: u8 },
}

/// What a line of a script orders.
#[derive(Debug, Drop)]
pub enum Event {
    /// A client begins a call.
    Call { client: u8, op: Op },
    /// A brick executes a request, or a client hears a reply.
    Deliver(Which),
    Lose(Which),
    /// A client stops waiting for a brick.
    GiveUp { client: u8, brick: u8 },
    /// A brick stops, keeping its disk and its index and losing its locks.
    Stop(u8),
    Return(u8),
    /// The brick, or with None each brick that is up, ends the grants and waiters of a client.
    Cut { client: u8, brick: Option<u8> },
    Die(u8),
    /// The brick writes the first bytes of a WriteChunks and stops.
    Tear { which: Which, bytes: u64 },
    /// A client releases the grants that it has kept.
    Yield(u8),
    /// Steps until none is left that applies.
    Settle,
    /// The same steps until the client's call is in a phase or answered.
    Until { client: u8, phase: Phase },
    /// A stopped brick's disk is wiped.
    Replace(u8),
}

impl Event {
    /// An equal value.
    pub fn copy(&self) -> Result<Event, AllocError>
        ensures { IfOk result (λ e. e ≡ self.now) }
    {
        Ok(match *self {
            Event::Call { client, ref op } => Event::Call {
                client,
                op: op.copy()?,
            },
            Event::Deliver(which) => Event::Deliver(which),
            Event::Lose(which) => Event::Lose(which),
            Event::GiveUp { client, brick } => Event::GiveUp { client, brick },
            Event::Stop(brick) => Event::Stop(brick),
            Event::Return(brick) => Event::Return(brick),
            Event::Cut { client, brick } => Event::Cut { client, brick },
            Event::Die(client) => Event::Die(client),
            Event::Tear { which, bytes } => Event::Tear { which, bytes },
            Event::Yield(client) => Event::Yield(client),
            Event::Settle => Event::Settle,
            Event::Until { client, phase } => Event::Until { client, phase },
            Event::Replace(brick) => Event::Replace(brick),
        })
    }
}
