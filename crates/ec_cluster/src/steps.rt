// The steps of messages and of clients in which no brick does anything.
ghost use Rattle.std.specs.Prelude.{◌≡◌, ◌∷◌, ◌++◌, ℕ, [], true, Some, is_some, IfOk, OnErr, OnOk};
ghost use Rattle.ec_cluster.specs.Sound.{IsSound};
ghost use Rattle.ec_cluster.specs.Steps.{Advances, Always, IsAllowed, Lives, Takes};
ghost use Rattle.ec_cluster.specs.Views.{can_hear, flight, is_of_clients, size_of};
ghost use Rattle.ec_wire.specs.declared.entry.Entry.TheVariants.{Heard, Lost};

use crate::cluster::Cluster;
use ec_wire::{Entry, Message};
use std::alloc::AllocError;

impl Cluster {
    /// Takes a reply in flight for its client to hear. Where there is no memory nothing has changed.
    pub fn take_reply(&mut self, no: u64) -> Result<Message, AllocError>
        requires sound { IsSound self.old }
        requires reply { can_hear self.old no ≡ true }
        ensures message { IfOk result (λ m. flight self.old no ≡ Some m) }
        ensures ok { IfOk result (λ m. Advances (Lives m.client) self.old self.new (Heard no ∷ [])) }
        ensures taken { OnOk result (Takes self.old self.new no (Heard no)) }
        ensures err { OnErr result (self.new ≡ self.old) }
    {
        self.log.push(Entry::Heard { no })?;
        match self.wire.take(no) {
            Some(message) => Ok(message),
            None => unreachable!(),
        }
    }

    /// Loses a message in flight. Where there is no memory nothing has changed.
    pub fn lose(&mut self, no: u64) -> Result<(), AllocError>
        requires sound { IsSound self.old }
        requires flies { is_some (flight self.old no) ≡ true }
        ensures ok { OnOk result (Advances Always self.old self.new (Lost no ∷ [])) }
        ensures taken { OnOk result (Takes self.old self.new no (Lost no)) }
        ensures err { OnErr result (self.new ≡ self.old) }
    {
        self.log.push(Entry::Lost { no })?;
        let _ = self.wire.take(no);
        Ok(())
    }

    /// Writes an entry down that is of calls and clients alone. Where there is no memory nothing has changed.
    pub fn note(&mut self, entry: Entry) -> Result<(), AllocError>
        requires sound { IsSound self.old }
        requires kind { is_of_clients entry ≡ true }
        ensures ok { OnOk result (Advances (IsAllowed (size_of self.old) entry) self.old self.new (entry ∷ [])) }
        ensures noted { OnOk result (self.new ≡ record self.old { log = self.old.log ++ entry ∷ [] }) }
        ensures err { OnErr result (self.new ≡ self.old) }
    {
        self.log.push(entry)
    }
}
