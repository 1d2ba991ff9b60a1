// Where the messages in flight go, in the order of sending.
ghost use Rattle.std.specs.Prelude.{◌≡◌, ℕ, true, false, OnErr, OnOk};
ghost use Rattle.ec_wire.specs.Lanes.{is_to_brick, place_of};
ghost use Rattle.ec_wire.specs.Places.{IsLowest, IsNext, has_number, has_place, is_between, with_number, with_place};
ghost use Rattle.ec_wire.specs.declared.places.Place.{Place};

use crate::message::{Body, Message};
use std::alloc::{AllocError, Global};
use std::collections::BTreeSet;
use std::ops::Bound;

/// Between whom and which way the message of a number goes. Places are ordered by their fields, the first field first,
/// so that those between one client and one brick in one direction stand together in the order of sending.
#[derive(Clone, Copy, Debug, PartialEq, Eq, PartialOrd, Ord)]
pub struct Place {
    pub client: u8,
    pub brick: u8,
    pub to_brick: bool,
    pub no: u64,
}

fn is_to_brick(body: &Body) -> bool
    ensures { result ≡ is_to_brick body.now }
{
    match body {
        Body::ToBrick(_) => true,
        Body::ToClient { .. } => false,
    }
}

/// The place of a message.
pub fn place_of(m: &Message) -> Place
    ensures { result ≡ place_of m.now }
{
    Place {
        client: m.client,
        brick: m.brick,
        to_brick: is_to_brick(&m.body),
        no: m.no,
    }
}

fn is_between(client: u8, brick: u8, to_brick: bool, p: Place) -> bool
    ensures { result ≡ is_between client brick to_brick p }
{
    p.client == client && p.brick == brick && p.to_brick == to_brick
}

/// Places, and their numbers. Contracts see it as `has_number` and `has_place`.
#[derive(Drop)]
pub struct Places {
    numbers: BTreeSet<u64>,
    places: BTreeSet<Place>,
}

impl Places {
    /// No places.
    pub fn new(alloc: Global) -> Places
        ensures numbers { (i : ℕ) → has_number result i ≡ false }
        ensures places { (p : Place) → has_place result p ≡ false }
    {
        Places {
            numbers: BTreeSet::new(alloc),
            places: BTreeSet::new(alloc),
        }
    }

    /// Puts in a place whose number is new.
    pub fn insert(&mut self, p: Place) -> Result<(), AllocError>
        requires { has_number self.old p.no ≡ false }
        ensures numbers { OnOk result (has_number self.new ≡ with_number (has_number self.old) p.no true) }
        ensures places { OnOk result (has_place self.new ≡ with_place (has_place self.old) p true) }
        ensures err_numbers { OnErr result (has_number self.new ≡ has_number self.old) }
        ensures err_places { OnErr result (has_place self.new ≡ has_place self.old) }
    {
        let _ = self.numbers.insert(p.no)?;
        match self.places.insert(p) {
            Ok(_) => Ok(()),
            Err(_) => {
                let _ = self.numbers.remove(&p.no);
                Err(AllocError)
            }
        }
    }

    /// Takes a place out.
    pub fn remove(&mut self, p: &Place)
        ensures numbers { has_number self.new ≡ with_number (has_number self.old) p.now.no false }
        ensures places { has_place self.new ≡ with_place (has_place self.old) p.now false }
    {
        let _ = self.numbers.remove(&p.no);
        let _ = self.places.remove(p);
    }

    /// The lowest number.
    pub fn first(&self) -> Option<u64>
        ensures { IsLowest (has_number self.now) result }
    {
        self.numbers.first().copied()
    }

    /// The least place that isn't below `p`.
    fn next_from(&self, p: Place) -> Option<Place>
        ensures { IsNext (has_place self.now) p result }
    {
        self.places
            .range((Bound::Included(p), Bound::Unbounded))
            .next()
            .copied()
    }

    /// The lowest number between a client and a brick in one direction.
    pub fn first_between(&self, client: u8, brick: u8, to_brick: bool) -> Option<u64>
        ensures { IsLowest (λ i. has_place self.now (record { client = client; brick = brick; to_brick = to_brick; no = i })) result }
    {
        let from = Place {
            client,
            brick,
            to_brick,
            no: 0,
        };
        match self.next_from(from) {
            Some(p) => {
                if is_between(client, brick, to_brick, p) {
                    Some(p.no)
                } else {
                    None
                }
            }
            None => None,
        }
    }
}
