// What becomes of a brick's record while a call holds a lock of it.
//
// `Alters` says which requests change a record, `Became` what may become of one while none does, and `Laws` what follows of the log of a
// world. Nothing of it runs.
#![tactic(auto)]

ghost use Rattle.ec_clients.specs.Calls.{tabled};
ghost use Rattle.ec_law_grants.specs.Laws.{WorldGrantLaws};

use ec_calls::AnyCall;
use ec_law_calls::world_laws;
use ec_txn::Conduct;

/// Let a cluster and its clients, which run built calls, be as what has come of the log says, and the log a run over bricks that stand
/// for a tree. Then at each moment of it: as long as a grant of a gfid stands that its call has heard, and nothing was sent under it
/// that changes the record there, the brick's record is as it was, but that a Make may have put a new one, a Made cleared its dirty
/// number, or an Unmake removed it for good. Where a brick did a PostOp while unmarked, the record that it has isn't of version 0. A
/// version that the flat file didn't begin with is one that a call committed. A record that is there and wasn't is of a gfid that was
/// blank as the log began. It does nothing when it runs.
pub fn world_grant_laws()
    ensures { WorldGrantLaws (⟦<AnyCall as Conduct>⟧.stands) (tabled (⟦<AnyCall as Conduct>⟧.begins) (⟦<AnyCall as Conduct>⟧.goes)) }
{
    world_laws();
}
