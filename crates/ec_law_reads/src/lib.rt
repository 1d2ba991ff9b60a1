// What a call has read of a file, as its account says, and what its turn was given in the machine of pieces.
//
// `Rows` has the rows of bricks, and `Stripes` says that a stripe is known by its codes at K of them. `Units` reads the bytes of a
// stripe in any way, `Given` is what a turn was given beside the chunk of a reply, and `Laws` says what follows of every log.
// Nothing of it runs.
#![tactic(auto)]

ghost use Rattle.ec_law_reads.specs.Laws.{FrontLaws, ReadLaws};
ghost use Rattle.ec_law_reads.specs.Stripes.{StripeLaws};

/// A stripe is known by its codes at K bricks: stripes with the same codes there have the same bytes, whether the codes are given as
/// chunks or byte by byte. It does nothing when it runs.
#[tactic(auto, using(crate::proofs::Stripes::stripe_laws))]
pub fn stripe_laws()
    ensures { StripeLaws }
{}

/// In every log that begins with bricks that stand, in which no call heals or sweeps, each call keeps the conduct in order and leaves
/// no grants, and the machine of pieces has those of the bricks: what a brick of the group gave of a stripe after it did the PreOp, the
/// turn of the call was given, as long as it has planned nothing. So a stripe that the call knows as it was, from what it read, has the
/// bytes of each one of which the turn was given the codes. It does nothing when it runs.
#[tactic(auto, using(crate::proofs::Laws::read_laws))]
pub fn read_laws()
    ensures { ReadLaws }
{}

/// In every such log the machine of pieces has had those of the bricks before each entry, if it began with them and each data request
/// that was done put the codes of what its turn planned. It does nothing when it runs.
#[tactic(auto, using(crate::proofs::Fronts::front_laws))]
pub fn front_laws()
    ensures { FrontLaws }
{}
