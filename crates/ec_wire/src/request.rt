// What clients ask of bricks.
ghost use Rattle.std.specs.Prelude.{◌≡◌, IfOk};

use crate::lists::ItemList;
use ec_attr::{Attr, Child, Domain, Gfid, Head, LockKind, Name, NameList};
use ec_field::Chunk;
use std::alloc::AllocError;

/// Chunks in order, seen as their list.
pub type ChunkList = ItemList<Chunk>;

/// What a client asks of a brick. `gfid` is whose record it is about, and `grant` the number of the Ask that the brick
/// has granted. Versions and dirty numbers are the content halves, a version with its mark; chunks and lengths of
/// fragments are counted from 0 in chunks, sizes in bytes.
#[derive(Debug, Drop)]
pub enum Request {
    /// For a lock, under the number of this message.
    Ask {
        gfid: Gfid,
        domain: Domain,
        kind: LockKind,
    },
    /// The grant or the waiting ask ends.
    Release {
        gfid: Gfid,
        grant: u64,
    },
    /// For the head.
    Query {
        gfid: Gfid,
        grant: u64,
    },
    /// Sets the dirty number where the version is `at`.
    PreOp {
        gfid: Gfid,
        grant: u64,
        at: u64,
        dirty: u64,
    },
    /// For so many chunks from `first` on.
    ReadChunks {
        gfid: Gfid,
        grant: u64,
        first: u64,
        count: u32,
    },
    /// Writes chunks from `first` on; under a Heal grant on a marked record alone.
    WriteChunks {
        gfid: Gfid,
        grant: u64,
        first: u64,
        chunks: ChunkList,
    },
    /// Makes chunks from `keep` on zeros and the fragment `length` chunks long; under a Heal grant on a marked record
    /// alone.
    SetLength {
        gfid: Gfid,
        grant: u64,
        keep: u64,
        length: u64,
    },
    /// Sets version and size, dirty 1, and the attribute where one is given, where the version is `at`.
    PostOp {
        gfid: Gfid,
        grant: u64,
        at: u64,
        version: u64,
        size: u64,
        attr: Option<Attr>,
    },
    /// Sets dirty 0 where the version is `at`.
    Clear {
        gfid: Gfid,
        grant: u64,
        at: u64,
    },
    /// For what a name leads to.
    NameGet {
        gfid: Gfid,
        grant: u64,
        name: Name,
    },
    /// For the next names past `after`.
    NamesAfter {
        gfid: Gfid,
        grant: u64,
        after: Option<Name>,
    },
    /// Sets what a name leads to, or removes the name.
    NameSet {
        gfid: Gfid,
        grant: u64,
        name: Name,
        child: Option<Child>,
    },
    /// Replaces the names past `after` and not past `upto` by a list, on a marked record.
    NamesPut {
        gfid: Gfid,
        grant: u64,
        after: Option<Name>,
        upto: Option<Name>,
        list: NameList,
    },
    /// Makes the record of a new child of the directory.
    Make {
        gfid: Gfid,
        grant: u64,
        child: Child,
    },
    /// Sets dirty 0 on the record of a child that was just made.
    Made {
        gfid: Gfid,
        grant: u64,
        child: Gfid,
    },
    /// Removes the record of a child.
    Unmake {
        gfid: Gfid,
        grant: u64,
        child: Gfid,
    },
    /// Sets a head whose version is marked, under an Inode grant and the Heal grant `heal`.
    Mark {
        gfid: Gfid,
        grant: u64,
        heal: u64,
        head: Head,
    },
    /// Takes the mark away and sets dirty, where the version is `at`.
    Unmark {
        gfid: Gfid,
        grant: u64,
        at: u64,
        dirty: u64,
    },
    /// For the next gfids past `after`, of the brick's index where `dirty` is true, else of its records.
    GfidsAfter {
        after: Option<Gfid>,
        dirty: bool,
    },
}

/// An equal name, or none.
fn copied(name: &Option<Name>) -> Result<Option<Name>, AllocError>
    ensures { IfOk result (λ n. n ≡ name.now) }
{
    match name {
        Some(name) => Ok(Some(name.copy()?)),
        None => Ok(None),
    }
}

impl Request {
    /// An equal value.
    pub fn copy(&self) -> Result<Request, AllocError>
        ensures { IfOk result (λ r. r ≡ self.now) }
    {
        Ok(match *self {
            Request::Ask { gfid, domain, kind } => Request::Ask { gfid, domain, kind },
            Request::Release { gfid, grant } => Request::Release { gfid, grant },
            Request::Query { gfid, grant } => Request::Query { gfid, grant },
            Request::PreOp {
                gfid,
                grant,
                at,
                dirty,
            } => Request::PreOp {
                gfid,
                grant,
                at,
                dirty,
            },
            Request::ReadChunks {
                gfid,
                grant,
                first,
                count,
            } => Request::ReadChunks {
                gfid,
                grant,
                first,
                count,
            },
            Request::WriteChunks {
                gfid,
                grant,
                first,
                ref chunks,
            } => Request::WriteChunks {
                gfid,
                grant,
                first,
                chunks: chunks.copy()?,
            },
            Request::SetLength {
                gfid,
                grant,
                keep,
                length,
            } => Request::SetLength {
                gfid,
                grant,
                keep,
                length,
            },
            Request::PostOp {
                gfid,
                grant,
                at,
                version,
                size,
                attr,
            } => Request::PostOp {
                gfid,
                grant,
                at,
                version,
                size,
                attr,
            },
            Request::Clear { gfid, grant, at } => Request::Clear { gfid, grant, at },
            Request::NameGet {
                gfid,
                grant,
                ref name,
            } => Request::NameGet {
                gfid,
                grant,
                name: name.copy()?,
            },
            Request::NamesAfter {
                gfid,
                grant,
                ref after,
            } => Request::NamesAfter {
                gfid,
                grant,
                after: copied(after)?,
            },
            Request::NameSet {
                gfid,
                grant,
                ref name,
                child,
            } => Request::NameSet {
                gfid,
                grant,
                name: name.copy()?,
                child,
            },
            Request::NamesPut {
                gfid,
                grant,
                ref after,
                ref upto,
                ref list,
            } => Request::NamesPut {
                gfid,
                grant,
                after: copied(after)?,
                upto: copied(upto)?,
                list: list.copy()?,
            },
            Request::Make { gfid, grant, child } => Request::Make { gfid, grant, child },
            Request::Made { gfid, grant, child } => Request::Made { gfid, grant, child },
            Request::Unmake { gfid, grant, child } => Request::Unmake { gfid, grant, child },
            Request::Mark {
                gfid,
                grant,
                heal,
                head,
            } => Request::Mark {
                gfid,
                grant,
                heal,
                head,
            },
            Request::Unmark {
                gfid,
                grant,
                at,
                dirty,
            } => Request::Unmark {
                gfid,
                grant,
                at,
                dirty,
            },
            Request::GfidsAfter { after, dirty } => Request::GfidsAfter { after, dirty },
        })
    }
}
