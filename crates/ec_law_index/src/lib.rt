// The index: some brick of a group that isn't whole on all N has a dirty number.
//
// `Index` says which runs keep it and what it is, `Clauses` what holds after each act. Nothing of it runs.
#![tactic(auto)]

ghost use Rattle.ec_law_pieces.specs.File.{Form};
ghost use Rattle.ec_law_index.specs.Files.{FileIndexLaws};
ghost use Rattle.ec_law_index.specs.Index.{IndexLaws};
ghost use Rattle.ec_law_index.specs.WorkedIndex.{WorkedIndex};

/// After every run that removes no record, from bricks that stand and of which it held: where K unmarked records agree in a
/// version and some brick of the N has none, or a marked one or one at another version, one of those that agree has a dirty
/// number other than 0. It does nothing when it runs.
#[tactic(auto, using(crate::proofs::Laws::laws))]
pub fn index_laws()
    ensures { IndexLaws }
{}

/// The worked run of every kind of act is one of those, as long as it removes no record. It does nothing when it runs.
#[tactic(auto, using(crate::proofs::WorkedIndex::worked))]
pub fn worked_index()
    ensures { WorkedIndex }
{}

/// The same of files and directories: after every run that removes no record, from bricks that stand and of which it held,
/// where K unmarked records agree and some brick of the N has no record or one that is not unmarked at the flat version, one
/// of those that agree has a dirty number other than 0. It does nothing when it runs.
pub fn file_index_laws<P, V, C, U, S>()
    ensures { (form : Form P V C U S) → FileIndexLaws form }
{}
