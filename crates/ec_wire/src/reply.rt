// What bricks reply.
ghost use Rattle.std.specs.Prelude.{◌≡◌, IfOk};

use crate::lists::ItemList;
use crate::request::ChunkList;
use ec_attr::{Child, Gfid, Head, NameList};
use std::alloc::AllocError;

/// Gfids in order, seen as their list.
pub type GfidList = ItemList<Gfid>;

/// What a brick replies to a request.
#[derive(Debug, Drop)]
pub enum Reply {
    /// The lock that was asked for.
    Granted,
    Head(Head),
    Chunks(ChunkList),
    Child(Option<Child>),
    Names(NameList),
    Done,
    /// The brick doesn't hold the grant of this number that the request needs.
    NoGrant(u64),
    /// There is no record.
    NoInode,
    /// There is a record already.
    IsInode,
    /// A request of files met a directory, or the reverse.
    OtherKind,
    /// The version isn't the one that the request names, but this.
    NotAt(u64),
    /// The store failed.
    Fault,
    Gfids(GfidList),
}

impl Reply {
    /// An equal value.
    pub fn copy(&self) -> Result<Reply, AllocError>
        ensures { IfOk result (λ r. r ≡ self.now) }
    {
        Ok(match *self {
            Reply::Granted => Reply::Granted,
            Reply::Head(head) => Reply::Head(head),
            Reply::Chunks(ref chunks) => Reply::Chunks(chunks.copy()?),
            Reply::Child(child) => Reply::Child(child),
            Reply::Names(ref list) => Reply::Names(list.copy()?),
            Reply::Done => Reply::Done,
            Reply::NoGrant(grant) => Reply::NoGrant(grant),
            Reply::NoInode => Reply::NoInode,
            Reply::IsInode => Reply::IsInode,
            Reply::OtherKind => Reply::OtherKind,
            Reply::NotAt(version) => Reply::NotAt(version),
            Reply::Fault => Reply::Fault,
            Reply::Gfids(ref list) => Reply::Gfids(list.copy()?),
        })
    }
}
