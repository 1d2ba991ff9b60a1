// The messages in flight.
ghost use Rattle.std.specs.Prelude.{◌≡◌, ℕ, ◌≤◌, is_some, nat_eq};
ghost use Rattle.indexmap.specs.IndexMap.{get};
ghost use Rattle.ec_wire.specs.Lanes.{IsIndexed, is_going};
ghost use Rattle.ec_wire.specs.Places.{has_number, has_place};

use crate::message::{Body, Message};
use crate::places::{Places, place_of};
use indexmap::IndexMap;
use std::alloc::{AllocError, Global};

/// The messages that were sent and not yet taken, by their numbers. Contracts see it as `in_flight`, the message of a
/// number, and `next_number`.
#[derive(Drop)]
pub struct Wire {
    next: u64,
    messages: IndexMap<u64, Message>,
    places: Places,
    pub ghost indexed: { IsIndexed (get nat_eq messages) next (has_number places) (has_place places) },
}

impl Wire {
    ghost use Rattle.std.specs.Prelude.{◌+◌, ◌<◌, ◌^◌, Bool, Option, Some, None, IfOk, IfSome, OnErr, OnOk, option_copied};
    ghost use Rattle.ec_wire.specs.Flight.{in_flight, next_number};
    ghost use Rattle.ec_wire.specs.Lanes.{with_message};
    ghost use Rattle.ec_wire.specs.Places.{IsLowest};

    /// Nothing is in flight, and the next number is 1.
    pub fn new(alloc: Global) -> Wire
        ensures next { next_number result ≡ 1 }
        ensures empty { (i : ℕ) → in_flight result i ≡ None }
    {
        Wire {
            next: 1,
            messages: IndexMap::new(alloc),
            places: Places::new(alloc),
        }
    }

    /// The number of the next message that is sent.
    pub fn next(&self) -> u64
        ensures value { result ≡ next_number self.now }
        ensures from_one { 1 ≤ result }
    {
        self.next
    }

    /// Sends a message under the next number.
    pub fn send(&mut self, call: u32, client: u8, brick: u8, body: Body) -> Result<u64, AllocError>
        requires { next_number self.old < 2 ^ 63 }
        ensures number { IfOk result (λ n. n ≡ next_number self.old) }
        ensures next { OnOk result (next_number self.new ≡ next_number self.old + 1) }
        ensures sent { OnOk result (in_flight self.new ≡ with_message (in_flight self.old) (next_number self.old) (Some (record { no = next_number self.old; call = call; client = client; brick = brick; body = body }))) }
        ensures err_next { OnErr result (next_number self.new ≡ next_number self.old) }
        ensures err { OnErr result (in_flight self.new ≡ in_flight self.old) }
    {
        let no = self.next;
        let message = Message {
            no,
            call,
            client,
            brick,
            body,
        };
        let place = place_of(&message);
        if let Err(e) = self.places.insert(place) {
            return Err(e);
        }
        match self.messages.insert(no, message) {
            Ok(_) => {
                self.next = no + 1;
                Ok(no)
            }
            Err(_) => {
                self.places.remove(&place);
                Err(AllocError)
            }
        }
    }

    /// Takes the message of a number, where it is in flight.
    pub fn take(&mut self, number: u64) -> Option<Message>
        ensures message { result ≡ in_flight self.old number }
        ensures own { IfSome result (λ m. m.no ≡ number) }
        ensures gone { in_flight self.new ≡ with_message (in_flight self.old) number None }
        ensures next { next_number self.new ≡ next_number self.old }
    {
        let place = match self.messages.get(&number) {
            Some(m) => place_of(m),
            None => return None,
        };
        self.places.remove(&place);
        self.messages.swap_remove(&number)
    }

    /// The message of a number, where it is in flight.
    pub fn get(&self, number: u64) -> Option<&Message>
        ensures message { option_copied result ≡ in_flight self.now number }
        ensures own { IfSome result (λ m. m.now.no ≡ number) }
    {
        self.messages.get(&number)
    }

    /// The lowest number in flight.
    pub fn first(&self) -> Option<u64>
        ensures lowest { IsLowest (λ i. is_some (in_flight self.now i)) result }
        ensures given { IfSome result (λ n. (1 ≤ n) × (n < next_number self.now)) }
    {
        self.places.first()
    }

    /// The lowest number in flight between a client and a brick, to the brick or from it.
    pub fn first_between(&self, client: u8, brick: u8, to_brick: bool) -> Option<u64>
        ensures lowest { IsLowest (λ i. is_going client brick to_brick (in_flight self.now i)) result }
        ensures given { IfSome result (λ n. (1 ≤ n) × (n < next_number self.now)) }
    {
        self.places.first_between(client, brick, to_brick)
    }
}
