// The names in a directory.
ghost use Rattle.std.proofs.Common.{rules};
ghost use Rattle.std.specs.Cmp.Lexicographic.{pointwise, slice_cmp};
ghost use Rattle.std.specs.Cmp.Rules.{comparing};
ghost use Rattle.std.specs.Cmp.{partial_order_from_own_ties};
ghost use Rattle.std.specs.List.{list_all};
ghost use Rattle.std.specs.Ordering.{as_partial_cmp, nat_cmp};
ghost use Rattle.std.specs.Prelude.{◌≡◌, ◌↔◌, Err, IfErr, IfOk, false, nat_eq, true, ◌⊎◌};
ghost use Rattle.ec_attr.specs.Name.{is_dots, is_name, may_stand};
ghost use Rattle.ec_attr.specs.declared.name.BadName.TheVariants.{NoMemory, NotAName};

use std::alloc::{AllocError, Global};
use std::cmp::Ordering;
use std::marker::Model;
use thiserror::Error;

/// A name in a directory, seen as its bytes. Names are ordered by their bytes.
#[derive(Debug, Drop)]
pub struct Name {
    bytes: Vec<u8>,
}

impl Model for Name {
    ghost use Rattle.std.specs.Prelude.{◌≡◌, List, ℕ, true};
    ghost use Rattle.ec_attr.specs.Name.{is_name};

    ghost Value = { List ℕ };

    ghost view = { λ n. n.bytes.items };

    ghost invariant = { λ n. is_name n.bytes.items ≡ true };
}

/// Why there is no such name.
#[derive(Clone, Copy, Debug, PartialEq, Eq, Drop, Error)]
pub enum BadName {
    /// The bytes are none that a name can have.
    #[error("not a name")]
    NotAName,

    /// There was no memory.
    #[error("nomemory")]
    NoMemory,
}

impl From<AllocError> for BadName {
    ghost from_gives = { λ _ e. e ≡ NoMemory };

    fn from(_e: AllocError) -> BadName {
        BadName::NoMemory
    }
}

/// Whether a name may hold this byte.
fn may_stand(byte: u8) -> bool
    ensures { result ≡ may_stand byte }
{
    byte != 0 && byte != b'/'
}

/// Whether a name may hold each of these bytes.
fn may_all_stand(bytes: &[u8]) -> bool
    ensures { result ≡ list_all may_stand bytes.now }
{
    bytes.iter().all(|byte| may_stand(*byte))
}

/// Whether these are the bytes of `.` or `..`.
fn is_dots(bytes: &[u8]) -> bool
    ensures { result ≡ is_dots bytes.now }
{
    matches!(bytes, [b'.'] | [b'.', b'.'])
}

/// Whether a name can have these bytes.
fn is_name(bytes: &[u8]) -> bool
    ensures { result ≡ is_name bytes.now }
{
    1 <= bytes.len() && bytes.len() <= 255 && may_all_stand(bytes) && !is_dots(bytes)
}

impl Name {
    /// The name of 1 to 255 bytes without `/` and 0, which is neither `.` nor `..`; any others are `NotAName`.
    pub fn new(alloc: Global, bytes: &[u8]) -> Result<Name, BadName>
        ensures ok { IfOk result (λ n. (n ≡ bytes.now) × (is_name bytes.now ≡ true)) }
        ensures refused { (result ≡ Err NotAName) ↔ (is_name bytes.now ≡ false) }
    {
        if !is_name(bytes) {
            return Err(BadName::NotAName);
        }
        Ok(Name {
            bytes: Vec::from_slice(alloc, bytes)?,
        })
    }

    /// The bytes in order.
    pub fn bytes(&self) -> &[u8]
        ensures value { result.now ≡ self.now }
        ensures name { is_name self.now ≡ true }
    {
        self.bytes.as_slice()
    }

    /// An equal value.
    pub fn copy(&self) -> Result<Name, AllocError>
        ensures { IfOk result (λ n. n ≡ self.now) }
    {
        Ok(Name {
            bytes: self.bytes.clone()?,
        })
    }
}

impl PartialEq for Name {
    ghost eq = { pointwise nat_eq };

    ghost laws = { Prim.search (comparing, rules) };

    fn eq(&self, other: &Name) -> bool {
        self.bytes == other.bytes
    }
}

impl Eq for Name {
    ghost laws = { Prim.search (comparing, rules) };
}

impl Ord for Name {
    ghost cmp = { slice_cmp nat_cmp };

    ghost total = { Prim.search (comparing, rules) };

    ghost matches_partial_cmp = { Prim.search (comparing, rules) };

    ghost matches_eq = { Prim.search (comparing, rules) };

    fn cmp(&self, other: &Name) -> Ordering {
        self.bytes.cmp(&other.bytes)
    }
}

impl PartialOrd for Name {
    ghost partial_cmp = { as_partial_cmp (slice_cmp nat_cmp) };

    ghost laws = { partial_order_from_own_ties (Prim.search (comparing, rules)) (Prim.search (comparing, rules)) };

    fn partial_cmp(&self, other: &Name) -> Option<Ordering> {
        Some(self.cmp(other))
    }
}

impl Clone for Name {
    ghost is_clone = { λ x y. y ≡ x };

    fn clone(&self) -> Result<Name, AllocError> {
        self.copy()
    }
}
