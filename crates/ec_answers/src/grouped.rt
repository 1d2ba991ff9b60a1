// What answers come to.

use ec_attr::{BrickSet, Head};

/// The good group: K bricks or more whose heads are unmarked and agree in kind, config, version, size and attribute.
/// `sinks` are the bricks whose heads are marked and agree but for the mark. `head` is that of the group's first brick,
/// with the greatest dirty number of the group.
#[derive(Clone, Copy, Debug, PartialEq, Eq)]
pub struct Group {
    pub bricks: BrickSet,
    pub sinks: BrickSet,
    pub head: Head,
}

/// What the answers come to: a good group, or K bricks or more that have no record, or neither. `Fewer` tells how many
/// bricks the largest set has that answered alike: unmarked heads that agree are alike, and so are those without a
/// record; any other answer is alike with none.
#[derive(Clone, Copy, Debug, PartialEq, Eq)]
pub enum Grouped {
    Group(Group),
    Gone(BrickSet),
    Fewer(u8),
}
