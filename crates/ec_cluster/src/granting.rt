// The Granted of waiters that are let in.
ghost use Rattle.std.specs.Prelude.{◌≡◌, ◌<◌, OnErr, OnOk};
ghost use Rattle.std.specs.List.{All};
ghost use Rattle.ec_cluster.specs.Inner.{Grants, GrantsPart, WasAsked};
ghost use Rattle.ec_cluster.specs.Said.{said_in};
ghost use Rattle.ec_cluster.specs.Sound.{IsSound};
ghost use Rattle.ec_cluster.specs.Views.{log_of, size_of};
ghost use Rattle.ec_history.specs.Run.{call_of};

use crate::cluster::Cluster;
use ec_locks::WaiterList;
use ec_wire::{Body, Reply};
use std::alloc::AllocError;

impl Cluster {
    /// The call of a message that was sent, 0 where none was.
    fn call_of(&self, number: u64) -> u32
        requires { IsSound self.now }
        ensures { result ≡ call_of (said_in (log_of self.now) number) }
    {
        match self.sent(number) {
            Some(message) => message.call,
            None => 0,
        }
    }

    /// Sends the Granted of waiters of a brick, each in the call of its Ask.
    pub(crate) fn grant(&mut self, brick: u8, granted: &WaiterList) -> Result<(), AllocError>
        requires sound { IsSound self.old }
        requires to { brick < size_of self.old }
        requires asked { All (WasAsked (said_in (log_of self.old)) brick) granted.now }
        ensures ok { OnOk result (Grants self.old self.new brick granted.now) }
        ensures err { OnErr result (GrantsPart self.old self.new brick granted.now) }
    {
        for waiter in granted.items() {
            let call = self.call_of(waiter.number);
            let body = Body::ToClient {
                re: waiter.number,
                reply: Reply::Granted,
            };
            self.put(call, waiter.client, brick, body)?;
        }
        Ok(())
    }
}
