// The sets of bricks that answered in one way.
ghost use Rattle.std.specs.Prelude.{◌≡◌, ℕ, ◌<◌, IfNone, IfSome, Some, false};
ghost use Rattle.ec_attr.specs.Bricks.{is_in};
ghost use Rattle.ec_attr.specs.GoodGroup.{agrees_with, alike, dirty_of, greatest_dirty, has_mark, is_sink};
ghost use Rattle.ec_answers.specs.Grouping.{absent, heads_of};

use crate::answers::{Answers, Given};
use crate::heads::{do_agree, without_mark};
use ec_attr::{BrickSet, Head, is_marked};

/// The bricks that a volume can have: their numbers are below 31.
const MOST: u8 = 31;

/// Whether a brick answered that it has no record.
fn is_absent(a: &Answers, b: u8) -> bool
    requires { b < 31 }
    ensures { result ≡ absent a.now b }
{
    matches!(&a.given[usize::from(b)], Some(Given::NoInode))
}

/// Whether a brick answered with a head that is unmarked and agrees with this one.
fn agrees_with(a: &Answers, b: u8, head: &Head) -> bool
    requires { b < 31 }
    ensures { result ≡ agrees_with head.now (heads_of a.now b) }
{
    match &a.given[usize::from(b)] {
        Some(Given::Head(h)) => !is_marked(h.version.content) && do_agree(head, h),
        _ => false,
    }
}

/// Whether a brick is a sink beside a group of this head.
fn is_sink(a: &Answers, b: u8, head: &Head) -> bool
    requires { b < 31 }
    ensures { result ≡ is_sink head.now (heads_of a.now b) }
{
    match &a.given[usize::from(b)] {
        Some(Given::Head(h)) => { is_marked(h.version.content) && do_agree(head, &without_mark(h)) }
        _ => false,
    }
}

/// The dirty number that a brick answered, 0 where it answered no head.
fn dirty_of(a: &Answers, b: u8) -> u64
    requires { b < 31 }
    ensures { result ≡ dirty_of (heads_of a.now b) }
{
    match &a.given[usize::from(b)] {
        Some(Given::Head(h)) => h.dirty.content,
        _ => 0,
    }
}

/// The head that a brick answered, where it is unmarked.
pub fn unmarked_head(a: &Answers, b: u8) -> Option<Head>
    requires { b < 31 }
    ensures some { IfSome result (λ h. (heads_of a.now b ≡ Some h) × (has_mark h ≡ false)) }
    ensures none { IfNone result ((c : ℕ) → alike (heads_of a.now) b c ≡ false) }
{
    match &a.given[usize::from(b)] {
        Some(Given::Head(h)) if !is_marked(h.version.content) => Some(*h),
        _ => None,
    }
}

/// The bricks that answered that they have no record.
pub fn absent_bricks(a: &Answers) -> BrickSet
    ensures { (b : ℕ) → is_in result b ≡ absent a.now b }
{
    let mut bricks = BrickSet::empty();
    for b in 0..MOST {
        if is_absent(a, b) {
            bricks = bricks.plus(b);
        }
    }
    bricks
}

/// The bricks with an unmarked head that agrees with this one.
pub fn agreeing_bricks(a: &Answers, head: &Head) -> BrickSet
    ensures { (b : ℕ) → is_in result b ≡ agrees_with head.now (heads_of a.now b) }
{
    let mut bricks = BrickSet::empty();
    for b in 0..MOST {
        if agrees_with(a, b, head) {
            bricks = bricks.plus(b);
        }
    }
    bricks
}

/// The sinks beside a group of this head.
pub fn sink_bricks(a: &Answers, head: &Head) -> BrickSet
    ensures { (b : ℕ) → is_in result b ≡ is_sink head.now (heads_of a.now b) }
{
    let mut bricks = BrickSet::empty();
    for b in 0..MOST {
        if is_sink(a, b, head) {
            bricks = bricks.plus(b);
        }
    }
    bricks
}

/// The greatest dirty number that these bricks answered.
#[tactic(auto, using(crate::proofs::Counting::greatest_steps))]
pub fn greatest_dirty(a: &Answers, bricks: &BrickSet) -> u64
    ensures { result ≡ greatest_dirty (heads_of a.now) (is_in bricks.now) }
{
    let mut greatest = 0;
    for b in 0..MOST {
        if bricks.has(b) {
            greatest = dirty_of(a, b).max(greatest);
        }
    }
    greatest
}
