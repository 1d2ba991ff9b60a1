// What built calls leave off once they have sent a PostOp, and so what the log of a world makes of the flat files.
//
// `LeavesOff` says what is meant, of own entries and of tables, and `Laws` what follows of each call and of the log of a world.
// `Names` says which names a call sets.
// Nothing of it runs.
#![tactic(auto)]

ghost use Rattle.ec_clients.specs.Calls.{tabled};
ghost use Rattle.ec_law_parts.specs.Laws.{CallPartLaws, WorldDataLaws, WorldFlatLaws};
ghost use Rattle.ec_law_parts.specs.Names.{CallNameLaws};

use ec_calls::AnyCall;
use ec_law_calls::world_laws;
use ec_law_data::flat_laws;
use ec_txn::Conduct;

/// Once a built call has sent a PostOp it asks for no content any more, so it has one window on each gfid to which it sends
/// PostOps; nor does it change data any more. It does nothing when it runs.
pub fn call_part_laws()
    ensures { CallPartLaws (⟦<AnyCall as Conduct>⟧.stands) }
{}

/// Let a cluster and its clients, which run built calls, be as what has come of the log says, and the log a run over bricks
/// that stand for a tree. Then at each moment of it the PostOps of a call on a gfid are of one turn. So the version of the last
/// commit is that of the flat file which the log makes, and K unmarked records that agree have it. It does nothing when it runs.
pub fn world_flat_laws()
    ensures { WorldFlatLaws (⟦<AnyCall as Conduct>⟧.stands) (tabled (⟦<AnyCall as Conduct>⟧.begins) (⟦<AnyCall as Conduct>⟧.goes)) }
{
    world_laws();
    flat_laws();
    call_part_laws();
}

/// In the log of every such world each request of a call that changes data, to whatever brick, was sent before each of its
/// PostOps: as it goes out, the call has sent none. It does nothing when it runs.
pub fn world_data_laws()
    ensures { WorldDataLaws (⟦<AnyCall as Conduct>⟧.stands) (tabled (⟦<AnyCall as Conduct>⟧.begins) (⟦<AnyCall as Conduct>⟧.goes)) }
{
    call_part_laws();
}

/// Each NameSet that a built call sends is of the call's own directory and name: a create or mkdir sets it to the child that the
/// call took, of its kind, and an unlink to none; other calls send none. It does nothing when it runs.
pub fn call_name_laws()
    ensures { CallNameLaws (⟦<AnyCall as Conduct>⟧.stands) }
{}
