// The log of a run.
ghost use Rattle.std.specs.Prelude.{◌≡◌, IfOk};

use crate::answer::Answer;
use crate::lists::ItemList;
use crate::message::Message;
use crate::op::Op;
use std::alloc::AllocError;

/// The entries of a run in order, seen as their list.
pub type Log = ItemList<Entry>;

/// One thing that happened. `no` is the number of a message.
#[derive(Debug, Drop)]
pub enum Entry {
    Called {
        call: u32,
        client: u8,
        op: Op,
    },
    Sent(Message),
    /// A brick executed a request. `version` is that of the head that it read, None where none was read or none is
    /// there; `failed` says that the reply is Fault.
    Executed {
        no: u64,
        version: Option<u64>,
        failed: bool,
    },
    /// A client heard a reply.
    Heard {
        no: u64,
    },
    Lost {
        no: u64,
    },
    /// A client stopped waiting for a brick's reply to request `no`.
    GivenUp {
        client: u8,
        brick: u8,
        no: u64,
    },
    Stopped {
        brick: u8,
    },
    Returned {
        brick: u8,
    },
    /// A brick ended the grants and waiters of a client.
    Cut {
        client: u8,
        brick: u8,
    },
    Died {
        client: u8,
    },
    Yielded {
        client: u8,
    },
    /// A brick wrote the first bytes of a WriteChunks and stopped; `version` as of Executed.
    Torn {
        no: u64,
        bytes: u32,
        version: Option<u64>,
    },
    Answered {
        call: u32,
        answer: Answer,
    },
    /// The disk of a stopped brick was wiped of so many records; of all of them, or not.
    Replaced {
        brick: u8,
        removed: u64,
        all: bool,
    },
}

impl Entry {
    /// An equal value.
    pub fn copy(&self) -> Result<Entry, AllocError>
        ensures { IfOk result (λ e. e ≡ self.now) }
    {
        Ok(match *self {
            Entry::Called {
                call,
                client,
                ref op,
            } => Entry::Called {
                call,
                client,
                op: op.copy()?,
            },
            Entry::Sent(ref message) => Entry::Sent(message.copy()?),
            Entry::Executed {
                no,
                version,
                failed,
            } => Entry::Executed {
                no,
                version,
                failed,
            },
            Entry::Heard { no } => Entry::Heard { no },
            Entry::Lost { no } => Entry::Lost { no },
            Entry::GivenUp { client, brick, no } => Entry::GivenUp { client, brick, no },
            Entry::Stopped { brick } => Entry::Stopped { brick },
            Entry::Returned { brick } => Entry::Returned { brick },
            Entry::Cut { client, brick } => Entry::Cut { client, brick },
            Entry::Died { client } => Entry::Died { client },
            Entry::Yielded { client } => Entry::Yielded { client },
            Entry::Torn { no, bytes, version } => Entry::Torn { no, bytes, version },
            Entry::Answered { call, ref answer } => Entry::Answered {
                call,
                answer: answer.copy()?,
            },
            Entry::Replaced {
                brick,
                removed,
                all,
            } => Entry::Replaced {
                brick,
                removed,
                all,
            },
        })
    }
}
