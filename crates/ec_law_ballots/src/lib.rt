// The machine of heads, grants and turns, and what holds at one brick after each of its acts.
//
// `Act` says what comes of each act, `Guard` what an act needs, `Begin` how a run begins, `Clauses` what holds at a brick.
// Nothing of it runs. That each kind of act can come to pass is shown by a run that is worked out.
#![tactic(auto)]

ghost use Rattle.ec_law_ballots.specs.Laws.{ClauseLaws};
ghost use Rattle.ec_law_ballots.specs.WorkedRun.{WorkedRun};

/// A run in which each kind of act is met. It does nothing when it runs.
#[tactic(auto, using(crate::proofs::WorkedRun::worked_run))]
pub fn worked_run()
    ensures { WorkedRun }
{}

/// Each act keeps each clause at each brick. It does nothing when it runs.
#[tactic(auto, using(crate::proofs::Laws::laws))]
pub fn clause_laws()
    ensures { ClauseLaws }
{}
