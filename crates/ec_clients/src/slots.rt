// The slots of the clients.
ghost use Rattle.std.specs.Prelude.{◌≡◌, ◌<◌, None, Some, length, option_copied, slice_get};
ghost use Rattle.ec_clients.specs.Frames.{ChangesAt};
ghost use Rattle.ec_clients.specs.Views.{running_at, slots_of};

use crate::clients::{Clients, Running};

impl<C: Drop> Clients<C> {
    /// The call that a client runs.
    pub fn running(&self, client: u8) -> Option<&Running<C>>
        ensures { option_copied result ≡ running_at self.now client }
    {
        match self.running.get(usize::from(client)) {
            Some(Some(running)) => Some(running),
            _ => None,
        }
    }

    /// Takes the call out of a client's slot.
    pub(crate) fn take(&mut self, client: u8) -> Option<Running<C>>
        requires { client < length (slots_of self.old) }
        ensures was { slice_get (slots_of self.old) client ≡ Some result }
        ensures changes { ChangesAt (slots_of self.old) (slots_of self.new) client None }
        ensures many { length (slots_of self.new) ≡ length (slots_of self.old) }
        ensures same { self.new ≡ record self.old { running = self.new.running } }
    {
        std::mem::replace(&mut self.running[usize::from(client)], None)
    }

    /// Puts a call into a client's slot, which is empty.
    pub(crate) fn put(&mut self, client: u8, running: Running<C>)
        requires { slice_get (slots_of self.old) client ≡ Some None }
        ensures changes { ChangesAt (slots_of self.old) (slots_of self.new) client (Some running) }
        ensures many { length (slots_of self.new) ≡ length (slots_of self.old) }
        ensures same { self.new ≡ record self.old { running = self.new.running } }
    {
        self.running[usize::from(client)] = Some(running);
    }
}
