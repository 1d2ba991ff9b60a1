// What an id stands for, and what is locked of it.
ghost use Rattle.std.specs.Prelude.{◌≡◌, ◌↔◌, IsTrue};

use crate::gfid::Gfid;

/// Whether a record is a file's or a directory's.
#[derive(Clone, Copy, Debug, PartialEq, Eq)]
pub enum Kind {
    File,
    Dir,
}

/// What a name in a directory leads to.
#[derive(Clone, Copy, Debug, PartialEq, Eq)]
pub struct Child {
    pub kind: Kind,
    pub gfid: Gfid,
}

/// The two domains of locks on an id: for its record's content, and for heals of it. Locks of different domains
/// don't conflict.
#[derive(Clone, Copy, Debug, PartialEq, Eq)]
pub enum Domain {
    Inode,
    Heal,
}

/// Whether others may hold the lock too.
#[derive(Clone, Copy, Debug, PartialEq, Eq)]
pub enum LockKind {
    Shared,
    Exclusive,
}

/// Whether two children are equal. In a contract it says what `==` does.
pub fn same_child(a: &Child, b: &Child) -> bool
    ensures { IsTrue result ↔ (a.now ≡ b.now) }
{
    *a == *b
}
