// The good group among the bricks that answered.
ghost use Rattle.std.specs.Prelude.{◌≡◌, ◌≤◌, ◌-◌, ℕ, Bool, None};
ghost use Rattle.ec_attr.specs.Bricks.{count_below, is_in};
ghost use Rattle.ec_attr.specs.GoodGroup.{IsGoodGroup, greatest_dirty, is_sink};
ghost use Rattle.ec_answers.specs.Grouping.{IsGone, IsGroupOf, IsGrouped, absent, given_by, heads_of};
ghost use Rattle.ec_attr.specs.Head.{with_dirty};

use crate::answers::Answers;
use crate::grouped::{Group, Grouped};
use crate::sets::{absent_bricks, agreeing_bricks, greatest_dirty, sink_bricks, unmarked_head};
use ec_attr::{BrickSet, Geometry, Head};

/// The good group among the bricks that answered, of a volume of this geometry.
pub fn group(a: &Answers, g: &Geometry) -> Grouped
    requires { (b : ℕ) → g.now.n ≤ b → given_by a.now b ≡ None }
    ensures grouped { IsGrouped (g.now.n - g.now.r) a.now result }

    // There is only one, and no other answer where there is one.
    ensures unique { (bricks : ℕ → Bool) → IsGoodGroup (g.now.n - g.now.r) (heads_of a.now) bricks → IsGroupOf bricks result }
    ensures gone { g.now.n - g.now.r ≤ count_below 31 (absent a.now) → IsGone result }
{
    let k = g.k();
    let absent = absent_bricks(a);
    if absent.len() >= k {
        return Grouped::Gone(absent);
    }
    let mut most = absent.len();
    for b in 0..31 {
        let Some(head) = unmarked_head(a, b) else {
            continue;
        };
        let bricks = agreeing_bricks(a, &head);
        if bricks.len() >= k {
            return Grouped::Group(group_of(a, bricks, head));
        }
        most = bricks.len().max(most);
    }
    Grouped::Fewer(most)
}

/// The group of these bricks, of which one has this head.
fn group_of(a: &Answers, bricks: BrickSet, head: Head) -> Group
    ensures bricks { result.bricks ≡ bricks }
    ensures sinks { (b : ℕ) → is_in result.sinks b ≡ is_sink result.head (heads_of a.now b) }
    ensures head { result.head ≡ with_dirty (greatest_dirty (heads_of a.now) (is_in bricks)) head }
{
    let mut head = head;
    head.dirty.content = greatest_dirty(a, &bricks);
    Group {
        bricks,
        sinks: sink_bricks(a, &head),
        head,
    }
}
