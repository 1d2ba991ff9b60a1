// What is left of a generated script.
ghost use Rattle.std.specs.Prelude.{◌+◌, ◌≤◌, ◌^◌};

use ec_attr::{BrickSet, Geometry};
use std::alloc::Global;

/// What is left of a generated script: a `settle` where one is due, then the files that are still to be made, then the
/// rounds that are drawn from `state` on. `first` is the gfid of the first file.
#[derive(Drop)]
pub struct Remaining {
    pub alloc: Global,
    pub geometry: Geometry,
    pub first: u128,
    pub settles: bool,
    pub creates: u8,
    pub rounds: u64,
    pub state: u64,
    pub stopped: BrickSet,
    pub ghost in_range: { first ≤ 2 ^ 96 + 1 },
    pub ghost files: { creates ≤ 4 },
}
