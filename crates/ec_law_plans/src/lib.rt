// Plans exist along every log of a world for which its data owe nothing: the plans of turns, which the machine of pieces is given
// from outside, are those of their calls.
//
// `Extend` says of any reading how plans are chosen entry by entry. `Naming` is what calls plan for a directory, and `Named` what the
// bricks hold of it after every log; `Given` is what is taken of writes and of shapes, until it is shown. `Worlds` says it of the log
// of a world. Nothing of it runs.
#![tactic(auto)]

ghost use Rattle.ec_clients.specs.Calls.{tabled};
ghost use Rattle.ec_law_data.specs.Reading.{Reading};
ghost use Rattle.ec_law_plans.specs.Extend.{PlanLaws};
ghost use Rattle.ec_law_plans.specs.Named.{NamedInEveryLog};
ghost use Rattle.ec_law_plans.specs.Naming.{PlansAreHistory};
ghost use Rattle.ec_law_plans.specs.Worlds.{NameLaws};

use ec_calls::AnyCall;
use ec_law_calls::{call_laws, world_laws};
use ec_law_parts::{call_name_laws, world_data_laws};
use ec_txn::Conduct;

/// Of a log read in any way: plans that agree with others on all that the machine has read of those make the same of it. Where
/// plans can be extended at each entry, so that its deeds owe nothing and its data requests put what was planned, there are
/// plans for each front of the log by which all of it owes nothing. It does nothing when it runs.
#[tactic(auto, using(crate::proofs::Extending::plan_laws))]
pub fn plan_laws<P, V, C, U, S>()
    ensures { (R : Reading P V C U S) → PlanLaws R }
{}

/// What a turn plans of names is what the history of the flat files says that the commit of its call sets: the same names, each to
/// the same child. It does nothing when it runs.
pub fn planned_history()
    ensures { PlansAreHistory }
{}

/// After every log that begins with bricks that stand for a tree, in which the calls are plain, keep the conduct in order and set
/// their own names alone: there are plans of names by which the log owes nothing, and each brick holds the one child at each
/// closed name. Of writes and of shapes it takes what their own laws say. It does nothing when it runs.
pub fn named_laws()
    ensures { NamedInEveryLog }
{}

/// In the log of every world over such bricks each call sets its own names alone; so, at each moment of it, there are plans of
/// the names of each directory by which it owes nothing, and each brick holds the one child at each closed name. It does
/// nothing when it runs.
pub fn name_laws()
    ensures { NameLaws (⟦<AnyCall as Conduct>⟧.stands) (tabled (⟦<AnyCall as Conduct>⟧.begins) (⟦<AnyCall as Conduct>⟧.goes)) }
{
    call_laws();
    world_laws();
    call_name_laws();
    world_data_laws();
    named_laws();
}
