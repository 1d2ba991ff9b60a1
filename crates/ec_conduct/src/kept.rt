// What a call leaves to its client's next call.

use ec_attr::{BrickSet, Gfid, Head};

/// Grants on a file that a write or truncate keeps for its client's next call. `head` is that of the file as its commit
/// left it; `bricks` are those of the group whose grants are kept, `sinks` the bricks with a marked record whose grants
/// are; `grants` has the number of the grant by brick, 0 for a brick in neither set. `dirty` is 0 where each of them has
/// dirty 0, else 1.
#[derive(Clone, Copy, Debug)]
pub struct Kept {
    pub gfid: Gfid,
    pub head: Head,
    pub bricks: BrickSet,
    pub sinks: BrickSet,
    pub grants: [u64; 31],
    pub dirty: u64,
}
