// The sending of messages.
ghost use Rattle.std.specs.Prelude.{◌≡◌, ◌∷◌, ◌<◌, [], OnErr, OnOk};
ghost use Rattle.ec_brick.specs.Fit.{IsFit};
ghost use Rattle.ec_cluster.specs.Sound.{IsSound};
ghost use Rattle.ec_cluster.specs.Steps.{Advances, IsOfClient, IsUnmoved, Sends};
ghost use Rattle.ec_cluster.specs.Views.{next_of, size_of};
ghost use Rattle.ec_wire.specs.declared.entry.Entry.TheVariants.{Sent};
ghost use Rattle.ec_wire.specs.declared.message.Body.TheVariants.{ToBrick};

use crate::chunks::are_chunks;
use crate::cluster::Cluster;
use ec_wire::{Body, Entry, Message, Request};
use std::alloc::AllocError;

/// Message numbers stay below 2^62.
const LAST: u64 = 0x4000_0000_0000_0000;

impl Cluster {
    /// Sends a message under the next number. The log and the wire have a copy each.
    pub(crate) fn put(
        &mut self,
        call: u32,
        client: u8,
        brick: u8,
        body: Body,
    ) -> Result<(), AllocError>
        ensures ok { OnOk result (Sends self.old self.new (record { no = next_of self.old; call = call; client = client; brick = brick; body = body })) }
        ensures err { OnErr result (IsUnmoved self.old self.new) }
    {
        let no = self.wire.next();
        if no >= LAST {
            return Err(AllocError);
        }
        let message = Message {
            no,
            call,
            client,
            brick,
            body,
        };
        let copy = message.copy()?;
        let Message { body, .. } = message;
        self.places.push(self.log.len())?;
        self.wire.send(call, client, brick, body)?;
        self.log.push(Entry::Sent(copy))
    }

    /// Sends a request of a client's call to a brick. Where there is no memory, or the numbers are used up, the log and
    /// the bricks are as before.
    pub fn send(
        &mut self,
        call: u32,
        client: u8,
        brick: u8,
        request: Request,
    ) -> Result<(), AllocError>
        requires sound { IsSound self.old }
        requires to { brick < size_of self.old }
        requires fit { IsFit request }
        ensures ok { OnOk result (Advances (IsOfClient call client) self.old self.new (Sent (record { no = next_of self.old; call = call; client = client; brick = brick; body = ToBrick request }) ∷ [])) }
        ensures sent { OnOk result (Sends self.old self.new (record { no = next_of self.old; call = call; client = client; brick = brick; body = ToBrick request })) }
        ensures err { OnErr result (IsUnmoved self.old self.new) }
    {
        are_chunks(&request);
        self.put(call, client, brick, Body::ToBrick(request))
    }
}
