// The phase `read`: K bricks of a set are asked for chunks, and one more for each that failed.
ghost use Rattle.std.specs.Prelude.{◌≡◌, ℕ, ◌<◌, ◌≤◌, ◌+◌, ◌-◌, ◌%◌, ◌^◌, vec_len};
ghost use Rattle.ec_attr.specs.Bricks.{count_below};
ghost use Rattle.ec_conduct.specs.Account.{Account};
ghost use Rattle.ec_conduct.specs.Given.{bricks_of};
ghost use Rattle.ec_txn.specs.Digest.{Shows, place_at};
ghost use Rattle.ec_txn.specs.ReadPhase.{ReadingLaw, count_before, count_wanted, has_chunks, is_counted, is_chosen, is_done, is_first, is_left, is_tried, reading_asks};
ghost use Rattle.ec_txn.specs.Replies.{reply_at};
ghost use Rattle.ec_txn.specs.Rounds.{subject};
ghost use Rattle.ec_txn.specs.Tables.{IsOf};

use crate::ctx::Ctx;
use crate::known::{Known, Place};
use ec_attr::{BrickSet, Gfid};
use ec_wire::{Reply, Request};

/// What one round of reading asks for: `count` chunks from chunk `first` on, of K bricks of `among`, the first ones
/// walking up from brick `start` and on from 0 past the last.
#[derive(Clone, Copy, Debug)]
pub struct Reading {
    pub among: BrickSet,
    pub start: u8,
    pub first: u64,
    pub count: u32,
}

fn is_first(read: Option<u64>, first: u64) -> bool
    ensures { result ≡ is_first read first }
{
    match read {
        Some(read) => read == first,
        None => false,
    }
}

fn is_tried(place: &Place, first: u64) -> bool
    ensures { result ≡ is_tried first place.now }
{
    place.waits.is_some() || is_first(place.read, first)
}

/// Whether a brick's last reply has chunks.
fn has_chunks(known: &Known, brick: u8) -> bool
    ensures { result ≡ has_chunks (reply_at known.now.replies.items.items brick) }
{
    if usize::from(brick) >= known.replies.items.len() {
        return false;
    }
    matches!(
        &known.replies.items[usize::from(brick)],
        Some(Reply::Chunks(_))
    )
}

impl Reading {
    fn is_left(&self, known: &Known, brick: u8) -> bool
        requires { brick < 31 }
        ensures { result ≡ is_left self.now (place_at known.now.places.items) brick }
    {
        let place = known.place(brick);
        self.among.has(brick) && !is_tried(&place, self.first) && !place.failed
    }

    /// Whether a brick gave its chunks.
    pub fn is_done(&self, known: &Known, brick: u8) -> bool
        requires { brick < 31 }
        ensures { result ≡ is_done self.now (place_at known.now.places.items) (reply_at known.now.replies.items.items) brick }
    {
        let place = known.place(brick);
        self.among.has(brick) && (is_first(place.read, self.first) && has_chunks(known, brick))
    }

    fn is_counted(&self, known: &Known, brick: u8) -> bool
        requires { brick < 31 }
        ensures { result ≡ is_counted self.now (place_at known.now.places.items) (reply_at known.now.replies.items.items) brick }
    {
        let place = known.place(brick);
        self.among.has(brick)
            && (place.waits.is_some()
                || is_first(place.read, self.first) && has_chunks(known, brick))
    }

    /// How many bricks gave their chunks.
    #[tactic(auto, using(ec_attr::proofs::Sets::counting))]
    pub fn count_done(&self, known: &Known) -> u8
        ensures { result ≡ count_below 31 (is_done self.now (place_at known.now.places.items) (reply_at known.now.replies.items.items)) }
    {
        let mut count = 0;
        for brick in 0..31u8 {
            if self.is_done(known, brick) {
                count += 1;
            }
        }
        count
    }

    #[tactic(auto, using(ec_attr::proofs::Sets::counting))]
    fn count_counted(&self, known: &Known) -> u8
        ensures { result ≡ count_below 31 (is_counted self.now (place_at known.now.places.items) (reply_at known.now.replies.items.items)) }
    {
        let mut count = 0;
        for brick in 0..31u8 {
            if self.is_counted(known, brick) {
                count += 1;
            }
        }
        count
    }

    /// How many bricks that are left come before this one.
    #[tactic(auto, using(ec_attr::proofs::Sets::counting))]
    fn count_before(&self, known: &Known, brick: u8) -> u8
        requires brick { brick < 31 }
        requires start { self.now.start < 31 }
        ensures { result ≡ count_before self.now.start (is_left self.now (place_at known.now.places.items)) brick }
    {
        let mut count = 0;
        for step in 0..(brick + 31 - self.start) % 31 {
            if self.is_left(known, (self.start + step) % 31) {
                count += 1;
            }
        }
        count
    }

    /// Whether a brick is asked now, where K bricks suffice.
    fn is_chosen(&self, known: &Known, k: u8, brick: u8) -> bool
        requires brick { brick < 31 }
        requires start { self.now.start < 31 }
        ensures { result ≡ is_chosen k self.now (place_at known.now.places.items) (reply_at known.now.replies.items.items) brick }
    {
        let counted = self.count_counted(known);
        let wanted = k.saturating_sub(counted);
        self.is_left(known, brick) && self.count_before(known, brick) < wanted
    }

    /// What a brick is asked now: at the round's beginning, or again in it.
    pub fn request(&self, ctx: &Ctx, gfid: Gfid, known: &Known, brick: u8) -> Option<Request>
        requires brick { brick < 31 }
        requires start { self.now.start < 31 }
        ensures { (c : Account) → subject c.given.op ≡ gfid.0 → IsOf ctx.now c.given → Shows (subject c.given.op) (bricks_of c.given) known.now c → result ≡ reading_asks self.now c brick }
    {
        if !self.is_chosen(known, ctx.geometry.k(), brick) || brick >= ctx.geometry.n {
            return None;
        }
        match known.place(brick).lock {
            Some(lock) if lock.granted => Some(Request::ReadChunks {
                gfid,
                grant: lock.number,
                first: self.first,
                count: self.count,
            }),
            _ => None,
        }
    }
}

/// What a round of reading asks again may be asked, of each brick once. It does nothing when it runs.
pub fn reading_law()
    ensures { ReadingLaw }
{}
