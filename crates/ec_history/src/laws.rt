// The laws of runs and of the flat file, and worked examples.
ghost use Rattle.ec_history.specs.AccountExamples.{OwnEntries};
ghost use Rattle.ec_history.specs.AnswerExamples.{PlainAnswers};
ghost use Rattle.ec_history.specs.Examples.{Behind, BesideAHeal, CutShort, HalfPosted, Scrubbed, TornWrite, Truncation};
ghost use Rattle.ec_history.specs.Laws.{FlatLaws, MayLaws, PastLaws, RunLaws, StartLaws, StoryLaws};
ghost use Rattle.ec_history.specs.MomentExamples.{MomentOfCalls};
ghost use Rattle.ec_history.specs.NameExamples.{Attributes, MadeFile, Moves, Names};
ghost use Rattle.ec_history.specs.RunExample.{AStatIsARun};
ghost use Rattle.ec_history.specs.ScriptExamples.{CutShortCall, SettlingOfTwo};
ghost use Rattle.ec_history.specs.StandingExamples.{Beginnings, Healed, HealedOpen, NotStanding};

/// What a commit makes of the flat file. It does nothing when it runs.
pub fn flat_laws()
    ensures { FlatLaws }
{}

/// Fronts and ends of runs. It does nothing when it runs.
#[tactic(auto, using(crate::proofs::Runs::joins, crate::proofs::Runs::front, crate::proofs::Runs::rest, crate::proofs::Runs::longer))]
pub fn run_laws()
    ensures { RunLaws }
{}

/// What may come next in a run. It does nothing when it runs.
#[tactic(auto, using(crate::proofs::Entries::may))]
pub fn entry_laws()
    ensures { MayLaws }
{}

/// What a log makes of the flat files. It does nothing when it runs.
#[tactic(auto, using(crate::proofs::Stories::joins, crate::proofs::Uncommitted::uncommitted))]
pub fn story_laws()
    ensures { StoryLaws }
{}

/// What there is after a log, and its parts. It does nothing when it runs.
#[tactic(auto, using(crate::proofs::Pasts::joins, crate::proofs::Pasts::nets, crate::proofs::Pasts::stories))]
pub fn past_laws()
    ensures { PastLaws }
{}

/// What fresh bricks stand for. It does nothing when it runs.
#[tactic(auto, using(crate::proofs::Beginning::beginning))]
pub fn start_laws()
    ensures { StartLaws }
{}

/// Short logs, and what they make of the flat files. It does nothing when it runs.
#[tactic(auto, using(crate::proofs::Examples::half_posted, crate::proofs::Examples::torn_write, crate::proofs::Examples::behind, crate::proofs::Examples::truncation))]
pub fn worked_examples()
    ensures half_posted { HalfPosted }
    ensures cut_short { CutShort }
    ensures beside_a_heal { BesideAHeal }
    ensures torn_write { TornWrite }
    ensures behind { Behind }
    ensures truncation { Truncation }
    ensures scrubbed { Scrubbed }
{}

/// Short logs of names and attributes. It does nothing when it runs.
#[tactic(auto, using(crate::proofs::NameExamples::names, crate::proofs::NameExamples::made_file, crate::proofs::NameExamples::attributes, crate::proofs::NameExamples::moves))]
pub fn worked_names()
    ensures names { Names }
    ensures made_file { MadeFile }
    ensures attributes { Attributes }
    ensures moves { Moves }
{}

/// A short log that is a run. It does nothing when it runs.
#[tactic(auto, using(crate::proofs::RunExample::a_stat_is_a_run))]
pub fn worked_run()
    ensures { AStatIsARun }
{}

/// Own entries and moments of calls, and what settling names. It does nothing when it runs.
#[tactic(auto, using(crate::proofs::AccountExamples::own_entries, crate::proofs::MomentExamples::moment_of_calls, crate::proofs::ScriptExamples::settling_of_two, crate::proofs::ScriptExamples::cut_short_call))]
pub fn worked_steps()
    ensures own { OwnEntries }
    ensures moments { MomentOfCalls }
    ensures settling { SettlingOfTwo }
    ensures cut { CutShortCall }
{}

/// Records that stand for no flat file, the record that a heal makes, and plain answers. It does nothing when it runs.
#[tactic(auto, using(crate::proofs::StandingExamples::not_standing, crate::proofs::StandingExamples::healed, crate::proofs::StandingExamples::healed_open, crate::proofs::StandingExamples::beginnings, crate::proofs::AnswerExamples::plain_answers))]
pub fn worked_states()
    ensures standing { NotStanding }
    ensures healed { Healed }
    ensures healed_open { HealedOpen }
    ensures beginnings { Beginnings }
    ensures answers { PlainAnswers }
{}
