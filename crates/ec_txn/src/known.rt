// What a call keeps of what it has sent and heard.
ghost use Rattle.std.specs.Prelude.{◌≡◌, ℕ, ◌<◌, Some, None, vec_len, IfOk, OnOk, ◌&&◌, nat_lt, is_some};
ghost use Rattle.ec_attr.specs.Bricks.{is_in};
ghost use Rattle.ec_conduct.specs.Done.{is_done};
ghost use Rattle.ec_store.specs.Put.{put};
ghost use Rattle.ec_txn.specs.Digest.{any_waits, given as given_of, given_up, granted, heard, no_place, place_at, sent_place};
ghost use Rattle.ec_txn.specs.Replies.{reply_at};

use crate::replies::Replies;
use ec_answers::Given;
use ec_attr::{BrickSet, Domain};
use ec_wire::{Reply, Request};
use std::alloc::{AllocError, Global};

/// A request that is waited for: its number, whether it is a Query, and the first chunk where it asks for chunks.
#[derive(Clone, Copy, Debug)]
pub struct Pending {
    pub number: u64,
    pub is_query: bool,
    pub read: Option<u64>,
}

/// An ask for the content's lock that isn't released.
#[derive(Clone, Copy, Debug)]
pub struct Held {
    pub number: u64,
    pub granted: bool,
}

/// What is known of one brick: the request that is waited for, the lock, what it answered to this window's Query, and
/// whether it didn't do some request of the window. `read` is the first chunk that the last request which is over asked
/// for, None where that asked for no chunks.
#[derive(Clone, Copy, Debug)]
pub struct Place {
    pub waits: Option<Pending>,
    pub lock: Option<Held>,
    pub given: Option<Given>,
    pub failed: bool,
    pub read: Option<u64>,
}

/// The same of every brick, and what it replied last.
#[derive(Drop)]
pub struct Known {
    pub places: Vec<Place>,
    pub replies: Replies,
}

/// What a reply to a Query gives.
fn given(reply: &Reply) -> Given
    ensures { result ≡ given_of reply.now }
{
    match reply {
        Reply::Head(head) => Given::Head(*head),
        Reply::NoInode => Given::NoInode,
        _ => Given::Other,
    }
}

/// Whether a reply is no refusal.
fn is_done(reply: &Reply) -> bool
    ensures { result ≡ is_done (Some reply.now) }
{
    match reply {
        Reply::NoGrant(_)
        | Reply::NoInode
        | Reply::IsInode
        | Reply::OtherKind
        | Reply::NotAt(_)
        | Reply::Fault => false,
        _ => true,
    }
}

/// The lock after a reply to the request of this number.
fn granted(lock: Option<Held>, number: u64, reply: &Reply) -> Option<Held>
    ensures { result ≡ granted lock number reply.now }
{
    match lock {
        Some(lock) => Some(Held {
            number: lock.number,
            granted: lock.granted || (lock.number == number && matches!(reply, Reply::Granted)),
        }),
        None => None,
    }
}

fn sent_one(place: Place, number: u64, request: &Request) -> Place
    ensures { result ≡ sent_place place number request.now }
{
    let mut new = place;
    match request {
        Request::Ask {
            domain: Domain::Inode,
            ..
        } => {
            new.waits = Some(Pending {
                number,
                is_query: false,
                read: None,
            });
            new.lock = Some(Held {
                number,
                granted: false,
            });
        }
        Request::Release { grant, .. } => {
            if let Some(lock) = place.lock {
                if lock.number == *grant {
                    new.lock = None;
                }
            }
        }
        Request::Query { .. } => {
            new.waits = Some(Pending {
                number,
                is_query: true,
                read: None,
            });
        }
        Request::ReadChunks { first, .. } => {
            new.waits = Some(Pending {
                number,
                is_query: false,
                read: Some(*first),
            });
        }
        _ => {
            new.waits = Some(Pending {
                number,
                is_query: false,
                read: None,
            });
        }
    }
    new
}

fn heard_one(place: Place, reply: &Reply) -> Place
    ensures { result ≡ heard place reply.now }
{
    match place.waits {
        Some(wait) => Place {
            waits: None,
            lock: granted(place.lock, wait.number, reply),
            given: if wait.is_query {
                Some(given(reply))
            } else {
                place.given
            },
            failed: place.failed || !is_done(reply),
            read: wait.read,
        },
        None => place,
    }
}

fn given_up_one(place: Place) -> Place
    ensures { result ≡ given_up place }
{
    match place.waits {
        Some(wait) => Place {
            waits: None,
            lock: place.lock,
            given: if wait.is_query { None } else { place.given },
            failed: true,
            read: wait.read,
        },
        None => place,
    }
}

impl Known {
    /// Nothing is known yet of so many bricks.
    pub fn new(alloc: Global, bricks: u8) -> Result<Known, AllocError>
        ensures len { IfOk result (λ known. vec_len known.places ≡ bricks) }
        ensures none { IfOk result (λ known. (x : ℕ) → place_at known.places.items x ≡ no_place) }
        ensures room { IfOk result (λ known. vec_len known.replies.items ≡ bricks) }
        ensures untold { IfOk result (λ known. (x : ℕ) → reply_at known.replies.items.items x ≡ None) }
    {
        let none = Place {
            waits: None,
            lock: None,
            given: None,
            failed: false,
            read: None,
        };
        let places = vec![in alloc; none; usize::from(bricks)]?;
        let replies = Replies::new(alloc, bricks)?;
        Ok(Known { places, replies })
    }

    /// What is known of a brick.
    pub fn place(&self, brick: u8) -> Place
        ensures { result ≡ place_at self.now.places.items brick }
    {
        if usize::from(brick) < self.places.len() {
            self.places[usize::from(brick)]
        } else {
            Place {
                waits: None,
                lock: None,
                given: None,
                failed: false,
                read: None,
            }
        }
    }

    /// A request is sent to a brick.
    pub fn sent(&mut self, brick: u8, number: u64, request: &Request)
        requires { brick < vec_len self.old.places }
        ensures at { place_at self.new.places.items ≡ put (place_at self.old.places.items) brick (sent_place (place_at self.old.places.items brick) number request.now) }
        ensures same { vec_len self.new.places ≡ vec_len self.old.places }
        ensures replies { self.new.replies ≡ self.old.replies }
    {
        let place = self.place(brick);
        self.places[usize::from(brick)] = sent_one(place, number, request);
    }

    /// The reply that is waited for comes from a brick.
    pub fn told(&mut self, brick: u8, reply: &Reply) -> Result<(), AllocError>
        requires place { brick < vec_len self.old.places }
        requires reply { brick < vec_len self.old.replies.items }
        ensures at { OnOk result (place_at self.new.places.items ≡ put (place_at self.old.places.items) brick (heard (place_at self.old.places.items brick) reply.now)) }
        ensures same { OnOk result ((vec_len self.new.places ≡ vec_len self.old.places) × (vec_len self.new.replies.items ≡ vec_len self.old.replies.items)) }
        ensures noted { OnOk result (reply_at self.new.replies.items.items ≡ put (reply_at self.old.replies.items.items) brick (Some reply.now)) }
    {
        self.replies.note(brick, Some(reply.copy()?));
        let place = self.place(brick);
        self.places[usize::from(brick)] = heard_one(place, reply);
        Ok(())
    }

    /// The reply of a brick is waited for no more.
    pub fn gave_up(&mut self, brick: u8)
        requires place { brick < vec_len self.old.places }
        requires reply { brick < vec_len self.old.replies.items }
        ensures at { place_at self.new.places.items ≡ put (place_at self.old.places.items) brick (given_up (place_at self.old.places.items brick)) }
        ensures same { (vec_len self.new.places ≡ vec_len self.old.places) × (vec_len self.new.replies.items ≡ vec_len self.old.replies.items) }
        ensures noted { reply_at self.new.replies.items.items ≡ put (reply_at self.old.replies.items.items) brick None }
    {
        self.replies.note(brick, None);
        let place = self.place(brick);
        self.places[usize::from(brick)] = given_up_one(place);
    }

    /// Whether a reply is waited for.
    pub fn is_waiting(&self) -> bool
        ensures { result ≡ any_waits self.now.places.items (vec_len self.now.places) }
    {
        let mut waits = false;
        for brick in 0..self.places.len() {
            waits = waits || self.places[brick].waits.is_some();
        }
        waits
    }

    /// The bricks whose replies are waited for.
    pub fn waiting(&self) -> BrickSet
        ensures { (b : ℕ) → is_in result b ≡ (nat_lt b 31 && is_some (place_at self.now.places.items b).waits) }
    {
        let mut bricks = BrickSet::empty();
        for brick in 0..31u8 {
            if self.place(brick).waits.is_some() {
                bricks = bricks.plus(brick);
            }
        }
        bricks
    }
}
