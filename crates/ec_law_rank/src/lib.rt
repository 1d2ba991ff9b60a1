// Why settling ends: a rank that each message sent, delivered, torn or lost and each giving up lowers, and nothing raises.
//
// `Rank` says what it is and what follows. Nothing of it runs.
#![tactic(auto)]

ghost use Rattle.ec_law_rank.specs.Rank.{RankLaws};

/// In every log that is a run from its beginning: no entry raises the rank, each that sends, delivers, tears or loses a message
/// or gives one up lowers it, and so does each step of settling. It does nothing when it runs.
#[tactic(auto, using(crate::proofs::Ranked::laws))]
pub fn rank_laws()
    ensures { RankLaws }
{}
