// Calls that begin, and clients that die.
ghost use Rattle.std.specs.Prelude.{◌≡◌, ◌<◌, ◌+◌, ◌-◌, ◌^◌, List, cond, false, true, ℕ, [], ◌∷◌, IfOk, None, Some, OnErr, OnOk, length, slice_get};
ghost use Rattle.ec_conduct.specs.Given.{Given};
ghost use Rattle.ec_conduct.specs.Opened.{account};
ghost use Rattle.ec_conduct.specs.Own.{Own};
ghost use Rattle.ec_txn.specs.Steps.{answer_of};
ghost use Rattle.ec_txn.specs.declared.ctx.Ctx.{Ctx as CtxOf};
ghost use Rattle.ec_cluster.specs.Sound.{IsSound};
ghost use Rattle.ec_cluster.specs.Views.{size_of};
ghost use Rattle.ec_clients.specs.Beginning.{AreAsMany};
ghost use Rattle.ec_clients.specs.Calls.{ctx_of, tabled};
ghost use Rattle.ec_clients.specs.Come.{Come};
ghost use Rattle.ec_clients.specs.Hearing.{Begins as BeganBy};
ghost use Rattle.ec_cluster.specs.Steps.{IsBegun};
ghost use Rattle.ec_clients.specs.Steps.{Breaks, Goes, Seen};
ghost use Rattle.ec_wire.specs.declared.entry.Entry.TheVariants.{Called, Died};
ghost use Rattle.ec_clients.specs.Views.{is_dead_at, slots_of};
ghost use Rattle.ec_history.specs.Story.{makes_a_child};
ghost use Rattle.ec_store.specs.Put.{put};

use crate::begins::Begins;
use crate::clients::{Clients, Running};
use crate::going::go_on;
use crate::hearing::LAST;
use ec_attr::Gfid;
use ec_cluster::Cluster;
use ec_txn::{Call, Ctx, Sends, Turn};
use ec_wire::{Entry, Op};
use std::alloc::{AllocError, Global};

/// No gfid comes near this.
const LAST_GFID: u128 = 0x4000_0000_0000_0000_0000_0000_0000_0000;

/// Whether a call makes a child, which takes the next gfid.
fn makes_a_child(op: &Op) -> bool
    ensures { result ≡ makes_a_child op.now }
{
    matches!(op, Op::Create { .. } | Op::Mkdir { .. })
}

impl<C> Clients<C> {
    /// What a client's next call is begun with.
    fn next_ctx(&self, client: u8) -> Ctx
        requires { self.now.calls + 1 < 2 ^ 32 }
        ensures { result ≡ ctx_of self.now.options (self.now.calls + 1) client self.now.next_gfid }
    {
        Ctx {
            geometry: self.options.geometry,
            call: self.calls + 1,
            client,
            policy: self.options.policy,
            window: self.options.window,
            child: Gfid(self.next_gfid),
            eager: self.options.eager,
        }
    }

    /// A call was made.
    fn count(&mut self, op: &Op)
        requires calls { self.old.calls + 1 < 2 ^ 32 }
        requires gfid { self.old.next_gfid + 1 < 2 ^ 128 }
        ensures same { self.new ≡ record self.old { calls = self.old.calls + 1; next_gfid = self.new.next_gfid } }
        ensures gfid { self.new.next_gfid ≡ cond (makes_a_child op.now) (self.old.next_gfid + 1) self.old.next_gfid }
    {
        self.calls += 1;
        if makes_a_child(op) {
            self.next_gfid += 1;
        }
    }
}

impl<C> Clients<C> {
    /// A client is dead.
    fn bury(&mut self, client: u8)
        requires { client < length self.old.dead.items }
        ensures same { self.new ≡ record self.old { dead = self.new.dead } }
        ensures dead { (x : ℕ) → is_dead_at self.new x ≡ put (is_dead_at self.old) client true x }
        ensures many { length self.new.dead.items ≡ length self.old.dead.items }
    {
        self.dead[usize::from(client)] = true;
    }
}

/// What comes of a call that has just begun.
fn first_turn<T, C: Call<T>>(call: &C) -> Result<Turn, AllocError>
    ensures { IfOk result (λ turn. (x : CtxOf) (given : Given) (es : List Own) → C.stands x given call.now es → answer_of turn ≡ (account given es).answer) }
{
    match call.ready() {
        Ok(Some(answer)) => Ok(Turn::Done(answer)),
        Ok(None) => Ok(Turn::Wait),
        Err(e) => Err(e),
    }
}

/// A client begins a call.
pub fn begin<T, C: Begins<T>>(
    clients: &mut Clients<C>,
    cluster: &mut Cluster,
    alloc: Global,
    client: u8,
    op: &Op,
) -> Result<(), AllocError>
    requires sound { IsSound cluster.old }
    requires size { size_of cluster.old ≡ clients.old.options.geometry.n }
    requires idle { slice_get (slots_of clients.old) client ≡ Some None }
    requires lives { is_dead_at clients.old client ≡ false }
    requires calls { clients.old.calls < 2 ^ 32 - 1 }
    ensures ok { OnOk result (BeganBy C.stands (tabled C.begins C.goes) cluster.old cluster.new clients.old clients.new client op.now) }
    ensures options { OnOk result (clients.new.options ≡ clients.old.options) }
    ensures many { OnOk result (AreAsMany clients.old clients.new) }
    ensures err { OnErr result (Breaks clients.old.options.geometry (IsBegun (λ e. e ≡ Called (clients.old.calls + 1) client op.now)) (Seen C.stands (tabled C.begins C.goes) cluster.old clients.old None) cluster.old cluster.new) }
{
    let next = cluster.next();
    if next >= LAST || clients.next_gfid >= LAST_GFID {
        return Err(AllocError);
    }
    let ctx = clients.next_ctx(client);
    let mut sends = Sends::new(alloc);
    let call = match C::begin(alloc, &ctx, op, next, &mut sends) {
        Ok(call) => call,
        Err(e) => return Err(e),
    };
    let turn = match first_turn::<T, C>(&call) {
        Ok(turn) => turn,
        Err(e) => return Err(e),
    };
    let copy = match op.copy() {
        Ok(copy) => copy,
        Err(e) => return Err(e),
    };
    let number = clients.calls + 1;
    match cluster.note(Entry::Called {
        call: number,
        client,
        op: copy,
    }) {
        Ok(()) => {}
        Err(e) => return Err(e),
    }
    clients.count(op);
    go_on::<T, C>(
        clients,
        cluster,
        client,
        Running { number, call },
        &sends,
        turn,
    )
}

/// A client that lives does nothing more.
pub fn die<T, C: Call<T>>(
    clients: &mut Clients<C>,
    cluster: &mut Cluster,
    client: u8,
) -> Result<(), AllocError>
    requires sound { IsSound cluster.old }
    requires lives { is_dead_at clients.old client ≡ false }
    requires there { client < length clients.old.dead.items }
    ensures ok { OnOk result (Goes clients.old.options.geometry (Seen C.stands (tabled C.begins C.goes) cluster.old clients.old None) (Seen C.stands (tabled C.begins C.goes) cluster.new clients.new None) cluster.old cluster.new (Died client ∷ [])) }
    ensures same { clients.new ≡ record clients.old { dead = clients.new.dead } }
    ensures many { length clients.new.dead.items ≡ length clients.old.dead.items }
    ensures err { OnErr result (Breaks clients.old.options.geometry (IsBegun (λ e. ⊥)) (Seen C.stands (tabled C.begins C.goes) cluster.old clients.old None) cluster.old cluster.new) }
{
    match cluster.note(Entry::Died { client }) {
        Ok(()) => {
            clients.bury(client);
            Ok(())
        }
        Err(e) => Err(e),
    }
}
