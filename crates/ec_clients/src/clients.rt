// The clients and their calls.
ghost use Rattle.std.specs.Prelude.{◌≡◌, ℕ, false, None};
ghost use Rattle.ec_clients.specs.Views.{is_dead_at, is_released, running_at};

use crate::options::Options;
use std::alloc::{AllocError, Global};
use std::collections::BTreeSet;

/// A call that isn't answered yet, by its number.
#[derive(Drop)]
pub struct Running<C> {
    pub number: u32,
    pub call: C,
}

/// The clients, 1 to 16. A client that is dead keeps the call that it ran.
#[derive(Drop)]
pub struct Clients<C> {
    /// By client, the call that it runs.
    pub(crate) running: Vec<Option<Running<C>>>,
    pub(crate) dead: Vec<bool>,
    /// How many calls were made.
    pub(crate) calls: u32,
    /// The gfid that the next create or mkdir takes.
    pub(crate) next_gfid: u128,
    pub(crate) options: Options,
    /// The asks of which a Release was sent.
    pub(crate) released: BTreeSet<u64>,
}

/// Clients are numbered from 1 to this.
pub(crate) const CLIENTS: u8 = 16;

impl<C> Clients<C> {
    /// Whether the client does nothing more.
    pub fn is_dead(&self, client: u8) -> bool
        ensures { result ≡ is_dead_at self.now client }
    {
        match self.dead.get(usize::from(client)) {
            Some(dead) => *dead,
            None => false,
        }
    }

    /// The volume's options.
    pub fn options(&self) -> &Options
        ensures { result.now ≡ self.now.options }
    {
        &self.options
    }

    /// How many calls were made.
    pub fn calls(&self) -> u32
        ensures { result ≡ self.now.calls }
    {
        self.calls
    }

    /// The gfid that the next create or mkdir takes.
    pub fn next_gfid(&self) -> u128
        ensures { result ≡ self.now.next_gfid }
    {
        self.next_gfid
    }

    /// Whether a Release of this ask was sent.
    pub fn is_released(&self, ask: u64) -> bool
        ensures { result ≡ is_released self.now ask }
    {
        self.released.contains(&ask)
    }
}
