// The parts of a cluster, and what is seen of it.
ghost use Rattle.std.specs.Prelude.{◌≡◌, ℕ, ◌≤◌, ◌<◌, is_some, IfSome, option_copied};
ghost use Rattle.ec_cluster.specs.Said.{message_of, said_in};
ghost use Rattle.ec_cluster.specs.Sound.{IsSound};
ghost use Rattle.ec_cluster.specs.Views.{asks_at, bricks_of, flight, is_up_at, log_of, next_of};
ghost use Rattle.ec_locks.specs.Table.{queued, waited};
ghost use Rattle.ec_wire.specs.Lanes.{is_going};
ghost use Rattle.ec_wire.specs.Places.{IsLowest};

use ec_brick::Brick;
use ec_wire::{Entry, Log, Message, Wire};

/// The bricks of a volume, the messages in flight and the log. The stores are lent at each call, one for each brick.
#[derive(Drop)]
pub struct Cluster {
    pub(crate) bricks: Vec<Brick>,
    pub(crate) wire: Wire,
    pub(crate) log: Log,
    /// Where the log has each message, from number 1 on.
    pub(crate) places: Vec<usize>,
}

impl Cluster {
    /// The number of the next message that is sent.
    pub fn next(&self) -> u64
        ensures value { result ≡ next_of self.now }
        ensures from_one { 1 ≤ result }
    {
        self.wire.next()
    }

    /// The entries so far.
    pub fn log(&self) -> &Log
        ensures { result.now ≡ log_of self.now }
    {
        &self.log
    }

    /// The log, where the cluster isn't used further.
    pub fn finish(self) -> Log
        ensures { result ≡ log_of self }
    {
        self.log
    }

    /// The bricks.
    pub fn bricks(&self) -> &[Brick]
        ensures { result.now ≡ bricks_of self.now }
    {
        self.bricks.as_slice()
    }

    /// Whether the brick is there and up.
    pub fn is_up(&self, brick: u8) -> bool
        ensures { result ≡ is_up_at self.now brick }
    {
        match self.bricks.get(usize::from(brick)) {
            Some(b) => b.up(),
            None => false,
        }
    }

    /// Whether an ask of that number waits at the brick.
    pub fn queued(&self, brick: u8, number: u64) -> bool
        ensures { result ≡ queued (asks_at self.now brick) number }
    {
        match self.bricks.get(usize::from(brick)) {
            Some(b) => b.locks().queued(number),
            None => false,
        }
    }

    /// Whether a grant of that number stands at the brick and somebody waits for its gfid and domain.
    pub fn waited(&self, brick: u8, number: u64) -> bool
        ensures { result ≡ waited (asks_at self.now brick) number }
    {
        match self.bricks.get(usize::from(brick)) {
            Some(b) => b.locks().waited(number),
            None => false,
        }
    }

    /// The message of a number, where it is in flight.
    pub fn get(&self, number: u64) -> Option<&Message>
        ensures { option_copied result ≡ flight self.now number }
    {
        self.wire.get(number)
    }

    /// The lowest number in flight.
    pub fn first(&self) -> Option<u64>
        ensures lowest { IsLowest (λ i. is_some (flight self.now i)) result }
        ensures given { IfSome result (λ n. (1 ≤ n) × (n < next_of self.now)) }
    {
        self.wire.first()
    }

    /// The lowest number in flight between a client and a brick, to the brick or from it.
    pub fn first_between(&self, client: u8, brick: u8, to_brick: bool) -> Option<u64>
        ensures lowest { IsLowest (λ i. is_going client brick to_brick (flight self.now i)) result }
        ensures given { IfSome result (λ n. (1 ≤ n) × (n < next_of self.now)) }
    {
        self.wire.first_between(client, brick, to_brick)
    }

    /// The message of a number, in flight or not.
    pub fn sent(&self, number: u64) -> Option<&Message>
        requires { IsSound self.now }
        ensures { option_copied result ≡ said_in (log_of self.now) number }
    {
        if number == 0 {
            return None;
        }
        let place = match self.places.get((number - 1) as usize) {
            Some(place) => *place,
            None => return None,
        };
        match self.log.items().get(place) {
            Some(entry) => message_of(entry),
            None => None,
        }
    }
}

/// The message of a Sent.
fn message_of(entry: &Entry) -> Option<&Message>
    ensures { option_copied result ≡ message_of entry.now }
{
    match entry {
        Entry::Sent(message) => Some(message),
        _ => None,
    }
}
