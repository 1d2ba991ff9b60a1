// What bricks leave as it is. These functions do nothing when they run: they hand on what their clauses say.
ghost use Rattle.std.specs.Prelude.{◌≡◌, ◌≤◌, ◌++◌, ℕ, List, None};
ghost use Rattle.std.specs.declared.option.Option.{Option};
ghost use Rattle.ec_clients.specs.Calls.{tabled};
ghost use Rattle.ec_clients.specs.Come.{Come, come};
ghost use Rattle.ec_clients.specs.Frames.{AreFrom, AreOfBricks};
ghost use Rattle.ec_clients.specs.Steps.{Seen};
ghost use Rattle.ec_clients.specs.declared.clients.Clients.{Clients as ClientsOf};
ghost use Rattle.ec_cluster.specs.Entries.{granted_entries, reply_entries};
ghost use Rattle.ec_cluster.specs.Sound.{IsSound};
ghost use Rattle.ec_cluster.specs.Views.{log_of, next_of};
ghost use Rattle.ec_cluster.specs.declared.cluster.Cluster.{Cluster as ClusterOf};
ghost use Rattle.ec_locks.specs.declared.waiters.Waiter.{Waiter};
ghost use Rattle.ec_wire.specs.declared.entry.Entry.{Entry};
ghost use Rattle.ec_wire.specs.declared.message.Message.{Message};
ghost use Rattle.ec_wire.specs.declared.reply.Reply.{Reply};

use ec_txn::Conduct;

/// What bricks do, and what becomes of messages, leaves the clients as they are.
pub fn brick_law<C: Conduct>()
    ensures { (s t : ClusterOf) (c : ClientsOf C) (es : List Entry) → IsSound s → log_of t ≡ log_of s ++ es → AreOfBricks es → AreFrom (next_of s) es → (p : Come) → Seen C.stands (tabled C.begins C.goes) s c None p → Seen C.stands (tabled C.begins C.goes) t c None (come c.options.geometry es p) }
{}

/// The replies of bricks are entries of bricks, under numbers that weren't given yet.
pub fn reply_law()
    ensures granted { (said : ℕ → Option Message) (b i : ℕ) (ws : List Waiter) → AreOfBricks (granted_entries said b i ws) × AreFrom i (granted_entries said b i ws) }
    ensures replies { (said : ℕ → Option Message) (q : Message) (i : ℕ) (reply : Option Reply) (ws : List Waiter) → AreOfBricks (reply_entries said q i reply ws) × AreFrom i (reply_entries said q i reply ws) }
{}
