// A log read by the machine of versions, one gfid at a time: which acts each entry is, and what that says of versions.
//
// `Turns` has the acts of an entry and the machine that they step beside the net, `Link` how the machine stands to the bricks
// and what an entry needs of the calls besides, `Grants` what a log keeps of locks, `Start` the machine as a run begins, `Laws`
// what follows of every log, and `WorkedLog` an example. `Conducts` and `Chosen` are first steps from the conduct to what
// calls have to know: that each call's conduct gives it is not proved here. Nothing of it runs.
#![tactic(auto)]

ghost use Rattle.ec_law_net.specs.Chosen.{GroupIsQuorum};
ghost use Rattle.ec_law_net.specs.Conducts.{ConductLaws};
ghost use Rattle.ec_law_net.specs.Laws.{LogLaws};
ghost use Rattle.ec_law_net.specs.WorkedLog.{WriteAsActs};

/// Of every log that is a run, seen from one gfid: its entries are acts that may come one after another, after which the
/// machine has the bricks' heads and exclusive grants; and so from bricks that stand no two turns of which a brick did a
/// PostOp have one version, and a commit's version is above that of every record outside. It is a premise that each turn
/// asks a brick for the content once, that a heal's lock is granted before those of its windows, and that the calls knew
/// what they must: of each request that a brick executed, and as they took their ballots. It does nothing when it runs.
#[tactic(auto, using(crate::proofs::GrantRuns::laws))]
pub fn log_laws()
    ensures { LogLaws }
{}

/// A write, beside another client that waits, as acts. It does nothing when it runs.
#[tactic(auto, using(crate::proofs::WorkedLog::write_as_acts))]
pub fn worked_log()
    ensures { WriteAsActs }
{}

/// A call whose own entries keep the conduct may, at each entry of a log by which it sends a request, send it by its account
/// of the entries before. It does nothing when it runs.
#[tactic(auto, using(crate::proofs::Conducts::laws))]
pub fn conduct_by_entry()
    ensures { ConductLaws }
{}

/// The good group among the heads that a call heard is at least K bricks on which the machine lets its ballot stand. It does
/// nothing when it runs.
#[tactic(auto, using(crate::proofs::Chosen::group_is_quorum))]
pub fn ballot_over_a_group()
    ensures { GroupIsQuorum }
{}
