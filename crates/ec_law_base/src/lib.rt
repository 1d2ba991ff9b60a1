// What the laws of a volume's history speak of: one gfid seen as heads, grants and turns, with no message; and counts of
// bricks.
//
// Nothing of it runs.
#![tactic(auto)]

ghost use Rattle.ec_law_base.specs.Counts.{CountLaws};

/// Of sets of bricks and their counts. It does nothing when it runs.
#[tactic(auto, using(crate::proofs::Counts::laws))]
pub fn count_laws()
    ensures { CountLaws }
{}
