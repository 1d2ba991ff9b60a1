// Which stripes built calls write and cut, and what the commit of a call on a file is planned to be.
//
// `Stripes` says of which stripes each write and cut of a call is, and what the call makes of them, and `Laws` what follows of
// built calls and of the log of a world. `Plans` has the plan that the machine of pieces takes for it, and `Filing` the plans of a log,
// entry by entry. Nothing of it runs.
#![tactic(auto)]

ghost use Rattle.ec_clients.specs.Calls.{tabled};
ghost use Rattle.ec_law_files.specs.Filing.{FilingLaws};
ghost use Rattle.ec_law_files.specs.Laws.{CallStripeLaws, WorldStripeLaws};
ghost use Rattle.ec_law_files.specs.Plans.{FilePlanLaws};

use ec_calls::AnyCall;
use ec_txn::Conduct;

/// Each write and cut that a built call sends is of its own stripes, and all chunks that it sends are the codes of one making. It does
/// nothing when it runs.
pub fn call_stripe_laws()
    ensures { CallStripeLaws (⟦<AnyCall as Conduct>⟧.stands) }
{}

/// Let a cluster and its clients, which run built calls, be as what has come of the log says, and the log a run over bricks that stand
/// for a tree. Then each write and cut that is sent in it is of its call's own stripes, and the chunks that a call sends, to whatever
/// bricks, are the codes of one making. It does nothing when it runs.
pub fn world_stripe_laws()
    ensures { WorldStripeLaws (⟦<AnyCall as Conduct>⟧.stands) (tabled (⟦<AnyCall as Conduct>⟧.begins) (⟦<AnyCall as Conduct>⟧.goes)) }
{
    call_stripe_laws();
}

/// At the request by which a turn on a file plans, what its call makes is a plan, where the turn read what the call takes for the old
/// stripes; each write and cut that the call sends goes to places that the plan covers, and puts the code of the planned values there.
/// It does nothing when it runs.
#[tactic(auto, using(crate::proofs::Plans::file_plan_laws))]
pub fn file_plan_laws()
    ensures { FilePlanLaws }
{}

/// At an entry of a log, where what is known of such a log holds, and each turn that has planned has its call's plan: what a turn plans
/// as it plans is a plan; each write and cut that was sent goes to stripes that the plan covers; what is done puts the codes of what its
/// turn planned; what is covered is put by the changes that a PostOp stands on; and plans can be chosen so, entry by entry. It does
/// nothing when it runs.
#[tactic(auto, using(crate::proofs::FilingLaws::filing_laws))]
pub fn filing_laws()
    ensures { FilingLaws }
{}
