// How a call on one gfid begins: it locks brick after brick, and asks those that granted for their heads.
ghost use Rattle.std.specs.Prelude.{◌≡◌, ℕ, ◌<◌, ◌≤◌, cond, nat_lt, Option, Some, None, vec_len};
ghost use Rattle.ec_conduct.specs.Account.{Account};
ghost use Rattle.ec_conduct.specs.Given.{bricks_of};
ghost use Rattle.ec_answers.specs.Grouping.{given_by as given_at};
ghost use Rattle.ec_attr.specs.Bricks.{count_below};
ghost use Rattle.ec_txn.specs.Digest.{Shows, is_locked, place_at};
ghost use Rattle.ec_txn.specs.Opening.{ComesTo, OpeningFollows, opening_asks, opening_phase};
ghost use Rattle.ec_txn.specs.Rounds.{subject};
ghost use Rattle.ec_txn.specs.declared.opening.Opening.TheVariants.{Lock as Locking};
ghost use Rattle.ec_txn.specs.Tables.{IsOf};

use crate::ctx::Ctx;
use crate::known::Known;
use crate::stage::Next;
use ec_answers::{Answers, Grouped, group};
use ec_attr::{Domain, Geometry, Gfid, LockKind};
use ec_wire::{Answer, Phase, Request};

/// The stages with which a call begins: the lock at one brick after another, then the Queries to all that granted it.
#[derive(Clone, Copy, Debug)]
pub enum Opening {
    Lock { at: u8 },
    Query,
}

impl Opening {
    pub fn phase(&self) -> Phase
        ensures { result ≡ opening_phase self.now }
    {
        match self {
            Opening::Lock { .. } => Phase::Lock,
            Opening::Query => Phase::Query,
        }
    }

    /// What it asks of a brick.
    pub fn request(
        &self,
        ctx: &Ctx,
        gfid: Gfid,
        kind: LockKind,
        known: &Known,
        brick: u8,
    ) -> Option<Request>
        ensures { (c : Account) → subject c.given.op ≡ gfid.0 → IsOf ctx.now c.given → Shows (subject c.given.op) (bricks_of c.given) known.now c → result ≡ opening_asks kind self.now c brick }
    {
        match self {
            Opening::Lock { at } => {
                if brick == *at {
                    Some(Request::Ask {
                        gfid,
                        domain: Domain::Inode,
                        kind,
                    })
                } else {
                    None
                }
            }
            Opening::Query => match known.place(brick).lock {
                Some(lock) if lock.granted && brick < ctx.geometry.n => Some(Request::Query {
                    gfid,
                    grant: lock.number,
                }),
                _ => None,
            },
        }
    }
}

/// What follows the lock at brick `at`: the lock at the next brick; after the last one the Queries, where enough granted.
pub fn after_lock(ctx: &Ctx, known: &Known, at: u8) -> Next<Opening>
    ensures { (c : Account) → IsOf ctx.now c.given → Shows (subject c.given.op) (bricks_of c.given) known.now c → OpeningFollows (λ stage. stage) (λ c grouped next. ⊥) (Locking at) c result }
{
    let bricks = ctx.geometry.n;
    if at < bricks && at + 1 < bricks {
        return Next::Go(Opening::Lock { at: at + 1 });
    }
    let most = count_locks(known, bricks);
    if ctx.geometry.k() <= most {
        Next::Go(Opening::Query)
    } else {
        Next::Say(Answer::NoQuorum {
            phase: Phase::Lock,
            most,
        })
    }
}

/// Whether a brick has granted the lock.
fn has_lock(known: &Known, brick: u8) -> bool
    ensures { result ≡ is_locked (place_at known.now.places.items brick).lock }
{
    match known.place(brick).lock {
        Some(lock) => lock.granted,
        None => false,
    }
}

/// How many bricks have granted the lock.
#[tactic(auto, using(ec_attr::proofs::Sets::counting))]
fn count_locks(known: &Known, bricks: u8) -> u8
    requires { bricks ≤ 31 }
    ensures count { result ≡ count_below bricks (λ x. is_locked (place_at known.now.places.items x).lock) }
    ensures few { result ≤ bricks }
{
    let mut count = 0;
    for brick in 0..bricks {
        if has_lock(known, brick) {
            count += 1;
        }
    }
    count
}

/// What the bricks answered to the Queries.
fn answers(known: &Known) -> Answers
    ensures { (x : ℕ) → given_at result x ≡ cond (nat_lt x 31) (place_at known.now.places.items x).given None }
{
    let mut given = [None; 31];
    for brick in 0..31u8 {
        given[usize::from(brick)] = known.place(brick).given;
    }
    Answers { given }
}

/// What the replies to the Queries come to.
pub fn come_to(known: &Known, geometry: &Geometry) -> Grouped
    requires { vec_len known.now.places ≡ geometry.now.n }
    ensures { (c : Account) → c.given.geometry ≡ geometry.now → Shows (subject c.given.op) (bricks_of c.given) known.now c → ComesTo c (subject c.given.op) result }
{
    group(&answers(known), geometry)
}
