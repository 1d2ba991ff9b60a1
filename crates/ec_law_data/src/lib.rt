// A log read by the machine of pieces, one gfid at a time: what bricks and calls do to the data of a file or a directory.
//
// `Reading` says how data are read in a log, `Forms` has the two readings, of a file by its stripes and of a directory by its
// names, and `Versions` one of no data. `Deeds` are the deeds that an entry is, and the machine that they step beside that of
// versions. `Link` says how that machine stands to the records of the bricks, `Owing` what the deeds need of data besides what
// the conduct gives, and `Laws` what follows of every log. Nothing of it runs.
#![tactic(auto)]

ghost use Rattle.ec_law_data.specs.Coding.{CodingLaws};
ghost use Rattle.ec_law_data.specs.Laws.{CommitLaws, CoreLaws, DataLaws, FlatLaws, HeldLaws, OwedLaws};
ghost use Rattle.ec_law_data.specs.Link.{Fits};
ghost use Rattle.ec_law_data.specs.Reading.{Plans, Reading};
ghost use Rattle.ec_law_data.specs.WorkedData.{NameAsDeeds};

/// Of every log, seen from one gfid and read in any way: the deeds of an entry, without what they do to pieces, are its acts on
/// heads and grants. It does nothing when it runs.
#[tactic(auto, using(crate::proofs::Cores::core_laws))]
pub fn core_laws<P, V, C, U, S>()
    ensures { (R : Reading P V C U S) (plans : Plans P V U S) → CoreLaws R plans }
{}

/// The code of a stripe byte by byte, for the rows of the bricks: zeros are the code of zeros, and a chunk with the code's elements
/// has its bytes. It does nothing when it runs.
#[tactic(auto, using(crate::proofs::Coding::coding_laws))]
pub fn coding_laws()
    ensures { CodingLaws }
{}

/// In every run in which no heal marks a record, read as a file or as a directory: where each data request that is done puts the
/// codes of what its turn planned, the machine has after each entry what the bricks' records have at each place. It does nothing
/// when it runs.
#[tactic(auto, using(crate::proofs::Logs::data_laws))]
pub fn data_laws()
    ensures { DataLaws }
{}

/// In every log that begins with bricks that stand, in which no call heals or sweeps, and each call keeps the conduct in order
/// and leaves no grants, read in any way that fits the bricks: where data owe nothing, the deeds may come one after another, and
/// so the laws of pieces hold. It does nothing when it runs.
#[tactic(auto, using(crate::proofs::OrderlyDeeds::owed_laws))]
pub fn owed_laws<P, V, C, U, S>()
    ensures { (R : Reading P V C U S) → Fits R → OwedLaws R }
{}

/// In every such log K unmarked records that agree have the version of the last commit; a turn commits on the version of the
/// last commit before it, after the moments of all who committed before; and the bricks stand again. It does nothing when it
/// runs.
#[tactic(auto, using(crate::proofs::Versions::commit_laws))]
pub fn commit_laws()
    ensures { CommitLaws }
{}

/// In every such log in which besides the PostOps of a call on the gfid are of one turn: the version of the last commit is that of the
/// flat file which the log makes, so K unmarked records that agree have the version of the flat file. It does nothing when it runs.
#[tactic(auto, using(crate::proofs::Versions::flat_laws))]
pub fn flat_laws()
    ensures { FlatLaws }
{}

/// In every such log, read as a file or as a directory, where besides each data request that is done puts the codes of what its
/// turn planned: at each closed stripe and name one value of which each brick's unmarked record at the flat version has the code,
/// and which has each known byte, or the known child. It does nothing when it runs.
#[tactic(auto, using(crate::proofs::Holding::held_laws))]
pub fn held_laws()
    ensures { HeldLaws }
{}

/// Of a create that gives its child a name at two of three bricks, the deeds of the directory, and what stands before and after its
/// commit. It does nothing when it runs.
#[tactic(auto, using(crate::proofs::WorkedData::name_as_deeds))]
pub fn worked_data()
    ensures { NameAsDeeds }
{}
