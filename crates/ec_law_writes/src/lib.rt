// What the data requests and the PostOps that bricks do owe in every log, whatever the plans are.
//
// `Guarding` says what stands in the machine of versions where a brick changes data for a turn, `Sinks` what of marked records, and
// `Writing` what a brick has written as it executes a PostOp. `Owing` parts what such deeds owe from what others do, and says what
// is asked of plans. `Laws` says of which logs. Nothing of it runs.
#![tactic(auto)]

ghost use Rattle.ec_law_data.specs.Reading.{Reading};
ghost use Rattle.ec_law_writes.specs.Laws.{OwingLaws, TakesWriters, WriteGuardLaws, WrittenLaws};

/// In every log that begins with bricks that stand, in which no call heals or sweeps, each call keeps the conduct in order and
/// leaves no grants, and sends no data after its PostOps: where a brick does a request on data under the grant of the content, or
/// some of it, the turn holds the brick, whose record stands at the turn's base, at a sink too, and none of the turn's PostOps was
/// done there. It does nothing when it runs.
#[tactic(auto, using(crate::proofs::Guarding::laws))]
pub fn write_guard_laws()
    ensures { WriteGuardLaws }
{}

/// In every such log, by any reading: as a brick executes a PostOp it has written every place of all changes that the call had sent
/// it since the PreOp, which are all that the call's commit is made of. It does nothing when it runs.
#[tactic(auto, using(crate::proofs::Writing::laws))]
pub fn written_laws<P, V, C, U, S>()
    ensures { (R : Reading P V C U S) → TakesWriters R → WrittenLaws R }
{}

/// In every such log, where besides the plan of each turn covers what its data requests write, and each place that it covers is
/// written by a change that the turn's PostOps stand on: the data requests and the PostOps among the deeds owe nothing. What is left
/// of the owing of a log is what its other deeds owe. It does nothing when it runs.
#[tactic(auto, using(crate::proofs::Owing::laws))]
pub fn owing_laws<P, V, C, U, S>()
    ensures { (R : Reading P V C U S) → TakesWriters R → OwingLaws R }
{}
