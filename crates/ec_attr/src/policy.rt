// How a read chooses its bricks.

/// How the first brick of a read is chosen: in turn, or by the file's id.
#[derive(Clone, Copy, Debug, PartialEq, Eq)]
pub enum Policy {
    RoundRobin,
    GfidHash,
}
