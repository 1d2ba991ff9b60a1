// Two quorums share a brick: what that says of the versions of turns.
//
// Nothing of it runs. Its laws stand on functions that do nothing, for the proofs that stand on them.
#![tactic(auto)]

ghost use Rattle.ec_law_quorum.specs.Laws.{VersionLaws};

/// Of every run from bricks that stand: no two turns of which a brick did a PostOp have one version, and a commit's
/// version is above that of every record outside. It does nothing when it runs.
#[tactic(auto, using(crate::proofs::Laws::laws))]
pub fn version_laws()
    ensures { VersionLaws }
{}
