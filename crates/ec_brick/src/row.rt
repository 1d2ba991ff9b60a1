// What the table asks of a request before its work.

use ec_attr::{Gfid, Kind};

/// Which grant of its gfid a request needs.
#[derive(Clone, Copy)]
pub enum Need {
    /// Inode, shared or exclusive.
    Reading,
    /// Inode, exclusive.
    Writing,
    /// Heal, exclusive.
    Healing,
    /// Inode, exclusive; or Heal, exclusive, where the record is marked.
    Either,
}

/// What the head is looked at for.
#[derive(Clone, Copy)]
pub enum Check {
    /// A record.
    Present,
    /// A record at this version, mark included.
    At(u64),
    /// A record of this kind.
    OfKind(Kind),
    /// The same, for a change of its content.
    Content(Kind),
    /// No record, and none that was removed since the brick started.
    Absent,
    /// A record as it was made.
    Fresh,
    /// A record that may get a head of this kind and version, or none.
    Markable(Kind, u64),
}

/// A row of the table: the grant with its gfid, the number of a Heal grant that has to be held too, whose head is read,
/// and what for.
#[derive(Clone, Copy)]
pub struct Row {
    pub gfid: Gfid,
    pub grant: u64,
    pub need: Need,
    pub heal: Option<u64>,
    pub subject: Gfid,
    pub check: Check,
}
