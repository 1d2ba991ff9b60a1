// What the replies to one name come to.
ghost use Rattle.std.specs.Prelude.{◌≡◌, ℕ, ◌<◌, ◌≤◌, false, is_some, IfNone, IfSome, None};
ghost use Rattle.ec_entry.specs.Named.{IsLowest, IsNamed, IsOther, NoneAlike, count_of, count_said, differs, said, same_value, says};
ghost use Rattle.ec_attr.specs.GoodGroup.{same_kind};
ghost use Rattle.ec_txn.specs.Replies.{reply_at};

use ec_attr::{BrickSet, Child, Kind};
use ec_txn::Known;
use ec_wire::Reply;

/// What the bricks of a group replied to one name: fewer than K replied, and how many; or K replied this child, or that
/// there is none; or neither, and then `Split` has the reply of the lowest brick, and that of the lowest brick whose
/// reply differs from it.
#[derive(Clone, Copy, Debug)]
pub enum Named {
    Fewer(u8),
    Alike(Option<Child>),
    Split(Option<Child>, Option<Child>),
}

fn is_same_kind(a: Kind, b: Kind) -> bool
    ensures { result ≡ same_kind a b }
{
    a == b
}

/// Whether two values are equal.
pub fn is_same(a: Option<Child>, b: Option<Child>) -> bool
    ensures { result ≡ same_value a b }
{
    match (a, b) {
        (None, None) => true,
        (Some(a), Some(b)) => is_same_kind(a.kind, b.kind) && a.gfid.0 == b.gfid.0,
        _ => false,
    }
}

/// What a brick of the set replied, where that is a child, or that there is none.
pub fn said_by(known: &Known, bricks: &BrickSet, brick: u8) -> Option<Option<Child>>
    requires { brick < 31 }
    ensures { result ≡ said bricks.now (reply_at known.now.replies.items.items) brick }
{
    if !bricks.has(brick) || usize::from(brick) >= known.replies.items.len() {
        return None;
    }
    match &known.replies.items[usize::from(brick)] {
        Some(Reply::Child(child)) => Some(*child),
        _ => None,
    }
}

fn did_say(known: &Known, bricks: &BrickSet, brick: u8) -> bool
    requires { brick < 31 }
    ensures { result ≡ is_some (said bricks.now (reply_at known.now.replies.items.items) brick) }
{
    said_by(known, bricks, brick).is_some()
}

fn says_value(known: &Known, bricks: &BrickSet, value: Option<Child>, brick: u8) -> bool
    requires { brick < 31 }
    ensures { result ≡ says value (said bricks.now (reply_at known.now.replies.items.items) brick) }
{
    match said_by(known, bricks, brick) {
        Some(other) => is_same(value, other),
        None => false,
    }
}

/// How many bricks replied.
#[tactic(auto, using(ec_attr::proofs::Sets::counting))]
fn count_replies(known: &Known, bricks: &BrickSet) -> u8
    ensures { result ≡ count_said (said bricks.now (reply_at known.now.replies.items.items)) }
{
    let mut count = 0;
    for brick in 0..31u8 {
        if did_say(known, bricks, brick) {
            count += 1;
        }
    }
    count
}

/// How many bricks replied this value.
#[tactic(auto, using(ec_attr::proofs::Sets::counting))]
fn count_alike(known: &Known, bricks: &BrickSet, value: Option<Child>) -> u8
    ensures { result ≡ count_of (said bricks.now (reply_at known.now.replies.items.items)) value }
{
    let mut count = 0;
    for brick in 0..31u8 {
        if says_value(known, bricks, value, brick) {
            count += 1;
        }
    }
    count
}

/// The value that K bricks replied.
fn alike(known: &Known, bricks: &BrickSet, k: u8) -> Option<Option<Child>>
    ensures some { IfSome result (λ v. k ≤ count_of (said bricks.now (reply_at known.now.replies.items.items)) v) }
    ensures none { IfNone result (NoneAlike k (said bricks.now (reply_at known.now.replies.items.items))) }
{
    for brick in 0..31u8 {
        if let Some(value) = said_by(known, bricks, brick) {
            if count_alike(known, bricks, value) >= k {
                return Some(value);
            }
        }
    }
    None
}

/// The reply of the lowest brick that replied.
fn lowest(known: &Known, bricks: &BrickSet) -> Option<Option<Child>>
    ensures some { IfSome result (IsLowest (said bricks.now (reply_at known.now.replies.items.items))) }
    ensures none { IfNone result ((z : ℕ) → z < 31 → said bricks.now (reply_at known.now.replies.items.items) z ≡ None) }
{
    for brick in 0..31u8 {
        let value = said_by(known, bricks, brick);
        if value.is_some() {
            return value;
        }
    }
    None
}

/// The reply of the lowest brick whose reply differs from `first`.
fn other(known: &Known, bricks: &BrickSet, first: Option<Child>) -> Option<Option<Child>>
    ensures some { IfSome result (IsOther (said bricks.now (reply_at known.now.replies.items.items)) first) }
    ensures none { IfNone result ((z : ℕ) → z < 31 → differs first (said bricks.now (reply_at known.now.replies.items.items) z) ≡ false) }
{
    for brick in 0..31u8 {
        if let Some(value) = said_by(known, bricks, brick) {
            if !is_same(first, value) {
                return Some(value);
            }
        }
    }
    None
}

/// What the bricks replied to a name, where K of them suffice.
pub fn name_value(known: &Known, bricks: &BrickSet, k: u8) -> Named
    requires { 0 < k }
    ensures { IsNamed k (said bricks.now (reply_at known.now.replies.items.items)) result }
{
    let replies = count_replies(known, bricks);
    if replies < k {
        return Named::Fewer(replies);
    }
    if let Some(value) = alike(known, bricks, k) {
        return Named::Alike(value);
    }
    let Some(first) = lowest(known, bricks) else {
        return Named::Fewer(replies);
    };
    match other(known, bricks, first) {
        Some(second) => Named::Split(first, second),
        None => Named::Alike(first),
    }
}
