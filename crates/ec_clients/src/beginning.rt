// Clients as a volume is started.
ghost use Rattle.std.specs.Prelude.{◌≡◌, ℕ, IfOk, []};
ghost use Rattle.ec_brick.specs.State.{State};
ghost use Rattle.ec_clients.specs.Beginning.{HasClients, beginning};
ghost use Rattle.ec_clients.specs.Calls.{tabled};
ghost use Rattle.ec_clients.specs.Owned.{Sees};
ghost use Rattle.ec_cluster.specs.Views.{log_of};
ghost use Rattle.ec_cluster.specs.declared.cluster.Cluster.{Cluster as ClusterOf};
ghost use Rattle.ec_history.specs.Flat.{Tree};

use crate::clients::{CLIENTS, Clients};
use crate::options::Options;
use ec_txn::Conduct;
use std::alloc::{AllocError, Global};
use std::collections::BTreeSet;

/// Clients that live and have made no call. The next create or mkdir takes `next_gfid`.
#[tactic(auto, using(crate::proofs::New::replicate_more))]
pub fn new_clients<C: Conduct + Drop>(
    alloc: Global,
    options: Options,
    next_gfid: u128,
) -> Result<Clients<C>, AllocError>
    ensures many { IfOk result HasClients }
    ensures options { IfOk result (λ c. c.options ≡ options) }
    ensures gfid { IfOk result (λ c. c.next_gfid ≡ next_gfid) }
    ensures sees { IfOk result (λ c. (s : ClusterOf) (bricks : ℕ → State) (tree : Tree) → log_of s ≡ [] → Sees C.stands (tabled C.begins C.goes) s c (beginning bricks tree next_gfid)) }
{
    let mut running = Vec::new(alloc);
    let mut dead = Vec::new(alloc);
    for _ in 0..CLIENTS + 1 {
        running.push(None)?;
        dead.push(false)?;
    }
    Ok(Clients {
        running,
        dead,
        calls: 0,
        next_gfid,
        options,
        released: BTreeSet::new(alloc),
    })
}

/// The next create or mkdir takes this gfid. It is for clients that have made no call.
pub fn set_next_gfid<C: Conduct>(clients: &mut Clients<C>, next_gfid: u128)
    ensures same { clients.new ≡ record clients.old { next_gfid = next_gfid } }
    ensures sees { (s : ClusterOf) (bricks : ℕ → State) (tree : Tree) (first : ℕ) → Sees C.stands (tabled C.begins C.goes) s clients.old (beginning bricks tree first) → Sees C.stands (tabled C.begins C.goes) s clients.new (beginning bricks tree next_gfid) }
{
    clients.next_gfid = next_gfid;
}
