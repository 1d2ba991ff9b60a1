// What calls are answered.
ghost use Rattle.std.specs.Prelude.{◌≡◌, [], ◌∷◌, ◌++◌, length, IfOk, OnErr, OnOk};

use crate::lists::ItemList;
use crate::phase::Phase;
use ec_attr::{Attr, Blob, BrickSet, Child, Gfid, Name};
use std::alloc::{AllocError, Global};
use std::marker::Model;

/// Numbers of stripes, rising, seen as their list.
pub type StripeList = ItemList<u64>;

/// The names of a directory with what they lead to, None where a name is open; seen as the list of these pairs.
#[derive(Debug, Drop)]
pub struct Listing {
    entries: Vec<(Name, Option<Child>)>,
}

impl Model for Listing {
    ghost use Rattle.std.specs.Prelude.{List, ℕ, Option};
    ghost use Rattle.ec_attr.specs.declared.kind.Child.{Child};

    ghost Value = { List (List ℕ × Option Child) };

    ghost view = { λ l. l.entries.items };
}

impl Listing {
    /// No names.
    pub fn new(alloc: Global) -> Listing
        ensures { result ≡ [] }
    {
        Listing {
            entries: Vec::new(alloc),
        }
    }

    /// How many names there are.
    pub fn len(&self) -> usize
        ensures { result ≡ length self.now }
    {
        self.entries.len()
    }

    /// The names in order.
    pub fn items(&self) -> &[(Name, Option<Child>)]
        ensures { result.now ≡ self.now }
    {
        self.entries.as_slice()
    }

    /// Adds a name at the end.
    pub fn push(&mut self, x: (Name, Option<Child>)) -> Result<(), AllocError>
        ensures ok { OnOk result (self.new ≡ self.old ++ x ∷ []) }
        ensures err { OnErr result (self.new ≡ self.old) }
    {
        self.entries.push(x)?;
        Ok(())
    }

    /// An equal value.
    pub fn copy(&self) -> Result<Listing, AllocError>
        ensures { IfOk result (λ l. l ≡ self.now) }
    {
        let mut entries = Vec::with_capacity(*self.entries.allocator(), self.entries.len())?;
        for (name, child) in &self.entries {
            entries.push((name.copy()?, *child))?;
        }
        Ok(Listing { entries })
    }
}

/// What a call is answered.
#[derive(Debug, Drop)]
pub enum Answer {
    /// Done; the file's size in bytes.
    Size(u64),
    Bytes(Blob),
    Child(Child),
    Gone,
    Names(Listing),
    /// The bricks that were sinks, and whether all bricks did the last step.
    Healed { sinks: BrickSet, all: bool },
    /// There was nothing to heal.
    Nothing,
    /// In this phase fewer than K bricks answered alike; `most` did.
    NoQuorum { phase: Phase, most: u8 },
    NoSuch,
    IsDir,
    NotDir,
    NoName,
    Exists(Child),
    /// No K bricks agree on the name: what the lowest brick has there, and what the lowest of those has that differ.
    Split(Option<Child>, Option<Child>),
    /// So many bytes are more than one call takes.
    TooLong(u64),
    /// A file can't reach this byte.
    TooBig(u64),
    /// A sink didn't do its part.
    Lost(u8),
    /// A sink is at a version other than the group's.
    Moved { mark: u64, group: u64 },
    /// The next version would be above the last.
    Limit(u64),
    /// There are no gfids left.
    Spent,
    Attr(Attr),
    /// The directory has this name.
    NotEmpty(Name),
    /// How many bricks were seen, and the stripes that aren't one codeword.
    Scrubbed { seen: u8, bad: StripeList },
    /// The same, the stripes being rewritten.
    Settled { seen: u8, bad: StripeList },
    /// A gfid that a sweep could neither heal nor give back.
    Left(Gfid),
    /// How many were healed and given back.
    Swept { healed: u64, given: u64 },
}

impl Answer {
    /// An equal value.
    pub fn copy(&self) -> Result<Answer, AllocError>
        ensures { IfOk result (λ a. a ≡ self.now) }
    {
        Ok(match *self {
            Answer::Size(n) => Answer::Size(n),
            Answer::Bytes(ref bytes) => Answer::Bytes(bytes.copy()?),
            Answer::Child(child) => Answer::Child(child),
            Answer::Gone => Answer::Gone,
            Answer::Names(ref list) => Answer::Names(list.copy()?),
            Answer::Healed { ref sinks, all } => Answer::Healed { sinks: *sinks, all },
            Answer::Nothing => Answer::Nothing,
            Answer::NoQuorum { phase, most } => Answer::NoQuorum { phase, most },
            Answer::NoSuch => Answer::NoSuch,
            Answer::IsDir => Answer::IsDir,
            Answer::NotDir => Answer::NotDir,
            Answer::NoName => Answer::NoName,
            Answer::Exists(child) => Answer::Exists(child),
            Answer::Split(a, b) => Answer::Split(a, b),
            Answer::TooLong(n) => Answer::TooLong(n),
            Answer::TooBig(n) => Answer::TooBig(n),
            Answer::Lost(b) => Answer::Lost(b),
            Answer::Moved { mark, group } => Answer::Moved { mark, group },
            Answer::Limit(version) => Answer::Limit(version),
            Answer::Spent => Answer::Spent,
            Answer::Attr(attr) => Answer::Attr(attr),
            Answer::NotEmpty(ref name) => Answer::NotEmpty(name.copy()?),
            Answer::Scrubbed { seen, ref bad } => Answer::Scrubbed {
                seen,
                bad: bad.copy()?,
            },
            Answer::Settled { seen, ref bad } => Answer::Settled {
                seen,
                bad: bad.copy()?,
            },
            Answer::Left(gfid) => Answer::Left(gfid),
            Answer::Swept { healed, given } => Answer::Swept { healed, given },
        })
    }
}
