// What the built calls of a volume give the laws of versions: their own entries keep the rules of order, and so the log of
// a world is one of those of which these laws speak.
//
// `Parts` says in which order a table asks, `Laws` what follows of each call, and `World` what follows of a log. Nothing of
// it runs.
#![tactic(auto)]

ghost use Rattle.ec_clients.specs.Calls.{tabled};
ghost use Rattle.ec_law_calls.specs.Laws.{CallLaws};
ghost use Rattle.ec_law_calls.specs.World.{WorldLaws};

use ec_calls::AnyCall;
use ec_txn::Conduct;

/// The own entries that a built call stands for keep the rules of order: in a window it asks a brick for the content once and
/// sends it a Make and a PostOp once, it takes no ballot under a lock that is shared, and one that makes a child has one
/// window on its directory. No such call is a heal or a sweep. It does nothing when it runs.
pub fn call_laws()
    ensures { CallLaws (⟦<AnyCall as Conduct>⟧.stands) }
{}

/// Let a cluster and its clients, which run built calls, be as what has come of the log says, and the log a run over bricks
/// that stand. Then at each moment of it no call heals or sweeps and each keeps the conduct in order; and the laws of
/// versions hold there, seen from any gfid, the children too that its calls make. What it asks of the next gfid goes on
/// with each event. It does nothing when it runs.
pub fn world_laws()
    ensures { WorldLaws (⟦<AnyCall as Conduct>⟧.stands) (tabled (⟦<AnyCall as Conduct>⟧.begins) (⟦<AnyCall as Conduct>⟧.goes)) }
{
    call_laws();
}
