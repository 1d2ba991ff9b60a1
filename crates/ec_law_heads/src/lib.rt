// What the heads of a gfid's records say of its flat file, after every log and at each moment of the log of a world.
//
// `Heads` has the clauses, which with what the records hold make bricks that stand for the flat file, and `Laws` what follows of
// every log. `Restart` says with what a further log may begin, `Making` of which kind a call makes its child, and `Worlds` what follows
// of the log of a world.
// Nothing of it runs.
#![tactic(auto)]

ghost use Rattle.ec_clients.specs.Calls.{tabled};
ghost use Rattle.ec_law_heads.specs.Laws.{HeadLaws};
ghost use Rattle.ec_law_heads.specs.Making.{CallKindLaws};
ghost use Rattle.ec_law_heads.specs.Restart.{RestartLaws};
ghost use Rattle.ec_law_heads.specs.Worlds.{WorldHeadLaws};

use ec_calls::AnyCall;
use ec_law_calls::world_laws;
use ec_law_parts::world_flat_laws;
use ec_txn::Conduct;

/// In every log that begins with bricks that stand for a tree, in which no call heals or sweeps, and each call keeps the conduct in
/// order and leaves no grants: the numbers of each head are in their ranges. Where the records of the beginning are of the volume, so
/// are those of the end. Where the Makes of a call are of one kind, each head has the kind of the flat file. Where the PostOps of a
/// call are of one turn, no K unmarked records agree in another version than that of the flat file, and each version above it leaves
/// fewer than K records low. A gfid of which no record was ever made is blank. It does nothing when it runs.
#[tactic(auto, using(crate::proofs::Logs::head_laws))]
pub fn head_laws()
    ensures { HeadLaws }
{}

/// Bricks that stand for a flat file stand for what is remembered of it: nothing, where no brick has a record any more. So a tree for
/// which bricks stand may be told with a blank for each gfid that no brick has, as a further log wants it. The records of stores that
/// bricks opened are of the volume. It does nothing when it runs.
#[tactic(auto, using(crate::proofs::Restarting::restart_laws))]
pub fn restart_laws()
    ensures { RestartLaws }
{}

/// Each Make that a built call sends is of the kind of what the call makes. It does nothing when it runs.
pub fn call_kind_laws()
    ensures { CallKindLaws (⟦<AnyCall as Conduct>⟧.stands) }
{}

/// Let a cluster and its clients, which run built calls, be as what has come of the log says, and the log a run over bricks
/// that stand for a tree. Then at each moment of it the Makes of a call are of one kind and its PostOps of one turn, so all that is
/// said of heads holds without these premises. It does nothing when it runs.
pub fn world_head_laws()
    ensures { WorldHeadLaws (⟦<AnyCall as Conduct>⟧.stands) (tabled (⟦<AnyCall as Conduct>⟧.begins) (⟦<AnyCall as Conduct>⟧.goes)) }
{
    world_laws();
    world_flat_laws();
    head_laws();
    call_kind_laws();
}
