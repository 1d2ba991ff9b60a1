// The steps in which a brick stops, comes back or cuts a client off.
ghost use Rattle.std.specs.Prelude.{◌≡◌, ◌∷◌, ℕ, [], List, ◌<◌, true, false, IfOk, OnErr, OnOk};
ghost use Rattle.ec_cluster.specs.Sound.{IsSound};
ghost use Rattle.ec_cluster.specs.Entries.{granted_entries};
ghost use Rattle.ec_cluster.specs.Said.{said_in};
ghost use Rattle.ec_cluster.specs.Steps.{Advances, Always, Breaks, Keeps};
ghost use Rattle.ec_cluster.specs.Views.{asks_at, is_up_at, log_of, next_of, size_of};
ghost use Rattle.ec_locks.specs.Asked.{granted_by_queue};
ghost use Rattle.ec_locks.specs.declared.ask.Leaving.TheVariants.{Client};
ghost use Rattle.ec_store.specs.Records.{Records};
ghost use Rattle.ec_wire.specs.declared.entry.Entry.TheVariants.{Cut, Returned, Stopped};

use crate::cluster::Cluster;
use ec_brick::known_laws;
use ec_wire::Entry;
use std::alloc::AllocError;

impl Cluster {
    /// A brick that is up stops: its locks end, its store and its index stay. Where there is no memory nothing has
    /// changed.
    pub fn stop(&mut self, brick: u8) -> Result<(), AllocError>
        requires sound { IsSound self.old }
        requires up { is_up_at self.old brick ≡ true }
        ensures ok { OnOk result (Advances Always self.old self.new (Stopped brick ∷ [])) }
        ensures changes { OnOk result (Keeps self.old self.new brick) }
        ensures stopped { OnOk result (is_up_at self.new brick ≡ false) }
        ensures err { OnErr result (self.new ≡ self.old) }
    {
        self.log.push(Entry::Stopped { brick })?;
        self.bricks[usize::from(brick)].stop();
        known_laws();
        Ok(())
    }

    /// A stopped brick comes back. Where there is no memory nothing has changed.
    pub fn start(&mut self, brick: u8) -> Result<(), AllocError>
        requires sound { IsSound self.old }
        requires there { brick < size_of self.old }
        requires down { is_up_at self.old brick ≡ false }
        ensures ok { OnOk result (Advances Always self.old self.new (Returned brick ∷ [])) }
        ensures changes { OnOk result (Keeps self.old self.new brick) }
        ensures started { OnOk result (is_up_at self.new brick ≡ true) }
        ensures err { OnErr result (self.new ≡ self.old) }
    {
        self.log.push(Entry::Returned { brick })?;
        self.bricks[usize::from(brick)].start();
        known_laws();
        Ok(())
    }

    /// A brick that is up ends the grants and waiters of a client; then the Granted of those that it lets in are sent.
    pub fn cut(&mut self, client: u8, brick: u8) -> Result<(), AllocError>
        requires sound { IsSound self.old }
        requires up { is_up_at self.old brick ≡ true }
        ensures ok { OnOk result (Advances Always self.old self.new (Cut client brick ∷ granted_entries (said_in (log_of self.old)) brick (next_of self.old) (granted_by_queue (Client client) (asks_at self.old brick)))) }
        ensures err { OnErr result ((records : List Records) → Breaks (λ e. e ≡ Cut client brick) (Unit {0}) self.old self.new records records) }
    {
        self.log.push(Entry::Cut { client, brick })?;
        known_laws();
        match self.bricks[usize::from(brick)].cut(client) {
            Ok(granted) => self.grant(brick, &granted),
            Err(e) => {
                self.log.drop_last();
                Err(e)
            }
        }
    }
}
