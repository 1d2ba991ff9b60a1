// Calls that are settled: made while nothing else is under way, and followed by `settle`.
//
// `Settled` says which calls these are, and `Serving` which bricks can serve them and what they are to be answered then. `Calm` says
// what comes of each entry of such a call, and `Laws` what follows of all; `Unchanged` says what nothing changes meanwhile, `Looking` which calls change nothing. `Asks` says how often a call
// asks a brick for a lock, `Worlds` and `Answered` what follows of the log of a world. Nothing of it runs.
#![tactic(auto)]

ghost use Rattle.ec_clients.specs.Calls.{tabled};
ghost use Rattle.ec_law_settled.specs.Answered.{AnsweredInEveryWorld, CallWaitLaws};
ghost use Rattle.ec_law_settled.specs.Asks.{CallAskLaws};
ghost use Rattle.ec_law_settled.specs.Laws.{OfEverySettledCall, SettledLaws};
ghost use Rattle.ec_law_settled.specs.Looking.{CallLookLaws, LooksAlterNothing};
ghost use Rattle.ec_law_settled.specs.Unchanged.{UnchangedLaws};
ghost use Rattle.ec_law_settled.specs.Worlds.{OfEveryWorldsCall};

use ec_calls::AnyCall;
use ec_txn::Conduct;

/// In each log that is a run, of the entries of each settled call: no brick stops, each lock is granted at once, messages are lost
/// and given up only where their brick is stopped, and each other is delivered; and a call that isn't answered waits for nobody. It
/// does nothing when it runs.
#[tactic(auto, using(crate::proofs::Laws::laws))]
pub fn settled_laws()
    ensures { SettledLaws OfEverySettledCall }
{}

/// A built call asks each brick for a lock at most once. It does nothing when it runs.
pub fn call_ask_laws()
    ensures { CallAskLaws (⟦<AnyCall as Conduct>⟧.stands) }
{}

/// Let a cluster and its clients, which run built calls, be as what has come of the log says, and the log a run. Then the same holds of
/// each settled call in it, and nothing is asked of what clients send. It does nothing when it runs.
pub fn world_settled_laws()
    ensures { SettledLaws (OfEveryWorldsCall (⟦<AnyCall as Conduct>⟧.stands) (tabled (⟦<AnyCall as Conduct>⟧.begins) (⟦<AnyCall as Conduct>⟧.goes))) }
{
    settled_laws();
    call_ask_laws();
}

/// In each log that is a run, of the entries of each settled call: a brick executes requests of this call alone, and Releases; and until a
/// request is executed that may alter records, each brick has the records that it had, and the flat files are as they were. It does nothing
/// when it runs.
#[tactic(auto, using(crate::proofs::Laws::unchanged))]
pub fn unchanged_laws()
    ensures { UnchangedLaws OfEverySettledCall }
{}

/// The same holds of each settled call in the log of a world. It does nothing when it runs.
pub fn world_unchanged_laws()
    ensures { UnchangedLaws (OfEveryWorldsCall (⟦<AnyCall as Conduct>⟧.stands) (tabled (⟦<AnyCall as Conduct>⟧.begins) (⟦<AnyCall as Conduct>⟧.goes))) }
{
    unchanged_laws();
    call_ask_laws();
}

/// A stat, getattr, lookup, read or readdir sends nothing that may alter records. It does nothing when it runs.
pub fn call_look_laws()
    ensures { CallLookLaws (⟦<AnyCall as Conduct>⟧.stands) }
{}

/// In the log of every world, among the entries of a settled call that is one of these, no request is executed that may alter records: so
/// each brick has the records that it had, and the flat files are as they were. It does nothing when it runs.
pub fn world_look_laws()
    ensures { LooksAlterNothing (⟦<AnyCall as Conduct>⟧.stands) (tabled (⟦<AnyCall as Conduct>⟧.begins) (⟦<AnyCall as Conduct>⟧.goes)) }
{
    call_look_laws();
    world_unchanged_laws();
}

/// As long as a built call has no answer, it waits for a brick. It does nothing when it runs.
pub fn call_wait_laws()
    ensures { CallWaitLaws (⟦<AnyCall as Conduct>⟧.stands) }
{}

/// Each settled call is answered, whichever bricks are up and whatever their stores do: of every world whose log ends with its entries and those
/// of the `settle` after it. It does nothing when it runs.
pub fn world_answered_laws()
    ensures { AnsweredInEveryWorld (⟦<AnyCall as Conduct>⟧.stands) (tabled (⟦<AnyCall as Conduct>⟧.begins) (⟦<AnyCall as Conduct>⟧.goes)) }
{
    call_wait_laws();
    world_settled_laws();
}
