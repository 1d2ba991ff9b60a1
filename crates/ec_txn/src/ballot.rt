// The ballot of a change, in its three stages.
ghost use Rattle.std.specs.Prelude.{◌≡◌, ◌≤◌, ◌<◌, ◌+◌, ◌^◌, ◌&&◌, ℕ, IfSome, is_some, vec_len};
ghost use Rattle.ec_attr.specs.Bricks.{count_below, is_in};
ghost use Rattle.ec_conduct.specs.Account.{Account};
ghost use Rattle.ec_conduct.specs.Ballots.{attr_after, size_after};
ghost use Rattle.ec_conduct.specs.Given.{bricks_of};
ghost use Rattle.ec_txn.specs.Ballot.{ballot_asks, ballot_asks_by, ballot_phase, count_serving, group_in, is_within, serving_by, version_at};
ghost use Rattle.ec_txn.specs.Digest.{Shows, place_at};
ghost use Rattle.ec_txn.specs.Rounds.{subject};
ghost use Rattle.ec_txn.specs.Tables.{IsOf};

use crate::ctx::Ctx;
use crate::known::Known;
use ec_answers::Group;
use ec_attr::{Attr, Gfid, Head, marked};
use ec_wire::{Phase, Request};

/// The stages that all changes of a record share: the PreOps, the PostOps and the Clears, each by the group that the
/// Queries gave. A call's own changes come between the first two.
#[derive(Clone, Copy, Debug)]
pub enum Ballot {
    Pre { group: Group },
    Post { group: Group },
    Clear { group: Group },
}

/// What the version of a commit stays below.
const LIMIT: u64 = 1 << 61;

/// The greatest size of a file.
const MOST: u64 = 1 << 40;

/// Whether a commit beside this head keeps its version below the limit.
pub fn is_within(head: &Head) -> bool
    ensures { result ≡ is_within head.now }
{
    head.version.content < LIMIT
        && head.dirty.content < LIMIT
        && head.version.content + (head.dirty.content + 1) < LIMIT
        && head.size <= MOST
}

/// The grant of a brick that did all that it was sent in this window.
fn serving(known: &Known, brick: u8) -> Option<u64>
    ensures { result ≡ serving_by (place_at known.now.places.items brick) }
{
    let place = known.place(brick);
    if place.failed {
        return None;
    }
    match place.lock {
        Some(lock) if lock.granted => Some(lock.number),
        _ => None,
    }
}

/// The group's version at a brick of it, and marked at a sink.
fn version_at(group: &Group, brick: u8) -> Option<u64>
    requires { brick < 31 }
    ensures version { result ≡ version_at group.now brick }
    ensures few { group.now.head.version.content < 2 ^ 61 → IfSome result (λ version. version < 2 ^ 63) }
{
    if group.bricks.has(brick) {
        Some(group.head.version.content)
    } else if group.sinks.has(brick) {
        Some(marked(group.head.version.content))
    } else {
        None
    }
}

/// How many bricks of the group did all that they were sent.
#[tactic(auto, using(ec_attr::proofs::Sets::counting))]
fn count_in(known: &Known, group: &Group, bricks: u8) -> u8
    requires { bricks ≤ 31 }
    ensures count { result ≡ count_below bricks (λ x. is_in group.now.bricks x && is_some (serving_by (place_at known.now.places.items x))) }
    ensures few { result ≤ bricks }
{
    let mut count = 0;
    for brick in 0..bricks {
        if group.bricks.has(brick) && serving(known, brick).is_some() {
            count += 1;
        }
    }
    count
}

/// How many bricks of the group did all that they were sent.
pub fn count_serving(ctx: &Ctx, known: &Known, group: &Group) -> u8
    ensures { (c : Account) → IsOf ctx.now c.given → Shows (subject c.given.op) (bricks_of c.given) known.now c → result ≡ count_serving c group.now }
{
    count_in(known, group, ctx.geometry.n)
}

impl Ballot {
    /// The phase of the stage.
    pub fn phase(&self) -> Phase
        ensures { result ≡ ballot_phase self.now }
    {
        match self {
            Ballot::Pre { .. } => Phase::Pre,
            Ballot::Post { .. } => Phase::Post,
            Ballot::Clear { .. } => Phase::Clear,
        }
    }

    /// The group that the Queries gave.
    pub fn group(&self) -> &Group
        ensures { result.now ≡ group_in self.now }
    {
        match self {
            Ballot::Pre { group } => group,
            Ballot::Post { group } => group,
            Ballot::Clear { group } => group,
        }
    }

    fn request_by(
        &self,
        bricks: u8,
        gfid: Gfid,
        size: u64,
        attr: Option<Attr>,
        known: &Known,
        brick: u8,
    ) -> Option<Request>
        requires { brick < 31 }
        ensures { result ≡ ballot_asks_by self.now bricks gfid.0 size attr (place_at known.now.places.items brick) brick }
    {
        let group = self.group();
        if !is_within(&group.head) || brick >= bricks {
            return None;
        }
        let grant = serving(known, brick)?;
        let at = version_at(group, brick)?;
        let dirty = group.head.dirty.content + 1;
        Some(match self {
            Ballot::Pre { .. } => Request::PreOp {
                gfid,
                grant,
                at,
                dirty,
            },
            Ballot::Post { .. } => Request::PostOp {
                gfid,
                grant,
                at,
                version: at + dirty,
                size,
                attr,
            },
            Ballot::Clear { .. } => Request::Clear {
                gfid,
                grant,
                at: at + dirty,
            },
        })
    }

    /// What it asks of a brick. `size` and `attr` are what the call's commit makes of the record.
    pub fn request(
        &self,
        ctx: &Ctx,
        gfid: Gfid,
        size: u64,
        attr: Option<Attr>,
        known: &Known,
        brick: u8,
    ) -> Option<Request>
        requires { brick < 31 }
        ensures { (c : Account) → subject c.given.op ≡ gfid.0 → IsOf ctx.now c.given → Shows (subject c.given.op) (bricks_of c.given) known.now c → size ≡ size_after c.given.op (group_in self.now).head.size → attr ≡ attr_after c.given.op → result ≡ ballot_asks self.now c brick }
    {
        self.request_by(ctx.geometry.n, gfid, size, attr, known, brick)
    }
}
