// What calls knew, from what each of them sent and heard: the conduct of calls seen from one gfid of a log.
//
// `Orderly` says which logs are meant, `Follows` how a call's account stands to the log, `Sound` what follows of each message,
// `Once` which requests a turn sends a brick once, and `Known` puts the first two together. `Replied` and `Shown` are what
// bricks told the calls of grants, of heads and of what they did, `Told` what a PreOp, a PostOp and a Clear stand on, `Makers`
// who makes a record, and `Births` what each Make and Made stands on. `Reached` puts all but the last together, and `Laws` says
// what follows of every such log; `WorkedChildren` is an example. Nothing of it runs.
#![tactic(auto)]

ghost use Rattle.ec_law_turns.specs.Laws.{MakerLaws, OrderlyLaws, TurnLaws};
ghost use Rattle.ec_law_turns.specs.WorkedChildren.{ChildAsActs};

/// In every log that begins with bricks that stand, in which no call heals or sweeps, and each call keeps the conduct in order
/// and leaves no grants: a turn asks each brick once for the content. It does nothing when it runs.
#[tactic(auto, using(crate::proofs::Runs::laws))]
pub fn turn_laws()
    ensures { TurnLaws }
{}

/// In every such log each Make of a gfid, and each Made, is sent by the call that took the gfid, and names a lock that this
/// call asked for on the directory in which it makes it; a brick does it only while the call has that directory there; and
/// the gfid had no version as the log began. It does nothing when it runs.
#[tactic(auto, using(crate::proofs::MakerRuns::laws))]
pub fn maker_laws()
    ensures { MakerLaws }
{}

/// The laws of versions for every such log, seen from any gfid, the children too that calls of the log make: what the calls
/// knew of heads, ballots, PreOps and Makes is shown from the conduct and from what the bricks replied. It does nothing when
/// it runs.
#[tactic(auto, using(crate::proofs::OrderlyRuns::laws))]
pub fn orderly_laws()
    ensures { OrderlyLaws }
{}

/// Of a create that makes its child at one brick, the acts of the child's machine: its maker counts there before any record
/// was made, and not at a brick that it locks later. It does nothing when it runs.
#[tactic(auto, using(crate::proofs::WorkedChildren::child_as_acts))]
pub fn worked_children()
    ensures { ChildAsActs }
{}
