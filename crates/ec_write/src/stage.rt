// The stages of a write and of a truncate.

use ec_answers::Group;
use ec_txn::{Ballot, Opening, Reading};
use ec_wire::{ChunkList, ItemList};

/// The stages of a write. Between PreOp and PostOp it reads the stripes that it covers in part, and writes.
#[derive(Debug, Drop)]
pub enum WriteStage {
    Opens(Opening),
    Votes(Ballot),
    /// One stripe is read. `front` is the first stripe as it was, where the last one is read after it.
    Reads {
        group: Group,
        reading: Reading,
        front: ChunkList,
    },
    /// The chunks of each brick are written, from the first stripe on.
    Writes {
        group: Group,
        lists: ItemList<ChunkList>,
    },
}

/// The stages of a truncate. Between PreOp and PostOp it reads and writes the stripe in which the lesser of both sizes
/// lies, where that is on no border, and then cuts.
#[derive(Debug, Drop)]
pub enum TruncateStage {
    Opens(Opening),
    Votes(Ballot),
    /// The stripe is read.
    Reads {
        group: Group,
        reading: Reading,
    },
    /// It is written, zeros in place of its tail.
    Writes {
        group: Group,
        lists: ItemList<ChunkList>,
    },
    /// The chunks past the lesser size become zeros, and the fragments get their new length.
    Cuts {
        group: Group,
    },
}
