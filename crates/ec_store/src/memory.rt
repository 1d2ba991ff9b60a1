// A record in memory.
ghost use Rattle.std.specs.Prelude.{◌≤◌, ◌^◌};

use ec_attr::{Child, Head, Name};
use ec_field::Chunk;
use std::collections::BTreeMap;

/// A record: of a file the chunks that aren't all zeros, by number, and the byte at which the fragment ends; of a
/// directory the names.
#[derive(Drop)]
pub struct Memory {
    pub head: Head,
    pub chunks: BTreeMap<u64, Chunk>,
    pub ends_at: u64,
    pub names: BTreeMap<Name, Child>,
    ghost small: { head.size ≤ 2 ^ 40 },
}
