// Each answer of a call has its cause, by what the call was to do and what its bricks replied, and no other answer has one.
//
// `Counted` says what each phase of a call counts, `Causes` what the causes of answers are, in the order of checking, and `Laws`
// what follows of each call and of the log of a world. Nothing of it runs.
#![tactic(auto)]

ghost use Rattle.ec_clients.specs.Calls.{tabled};
ghost use Rattle.ec_law_causes.specs.Laws.{CallCauseLaws, WorldCauseLaws};

use ec_calls::AnyCall;
use ec_txn::Conduct;

/// Where a built call is answered, its account has the cause of its answer, and of no other. It does nothing when it runs.
pub fn call_cause_laws()
    ensures { CallCauseLaws (⟦<AnyCall as Conduct>⟧.stands) }
{}

/// In the log of every world, at each entry that answers a call, the call's account has the cause of the answer. It does nothing
/// when it runs.
pub fn world_cause_laws()
    ensures { WorldCauseLaws (⟦<AnyCall as Conduct>⟧.stands) (tabled (⟦<AnyCall as Conduct>⟧.begins) (⟦<AnyCall as Conduct>⟧.goes)) }
{
    call_cause_laws();
}
