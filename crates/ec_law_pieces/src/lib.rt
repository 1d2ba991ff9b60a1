// What the bricks hold of a file or a directory after every run, beside heads and grants.
//
// `File` is what there is, `Deed` what bricks and turns do, what each deed needs and what comes of it, `Clauses` what holds
// after each. Places, values and pieces are any types: the stripes of a file with their codes, or the names of a directory
// with their children. Nothing of it runs.
#![tactic(auto)]

ghost use Rattle.ec_law_pieces.specs.File.{Form};
ghost use Rattle.ec_law_pieces.specs.Laws.{FileLaws};
ghost use Rattle.ec_law_pieces.specs.WorkedDeeds.{WorkedDeeds};

/// A run in which each kind of deed is met. It does nothing when it runs.
#[tactic(auto, using(crate::proofs::WorkedDeeds::worked))]
pub fn worked_deeds()
    ensures { WorkedDeeds }
{}

/// After every run from bricks that stand: each unmarked record at the flat version holds, at each closed place, the code
/// of one and the same value, which has each known unit; K unmarked records that agree have the flat version; commits are
/// in the order of their moments, each on the flat version before it; and the bricks stand again. It does nothing when it
/// runs.
pub fn file_laws<P, V, C, U, S>()
    ensures { (form : Form P V C U S) → FileLaws form }
{}
