// The laws of good groups.
ghost use Rattle.ec_answers.specs.Laws.{GoodGroupLaws};

/// The laws of good groups, for the proofs that stand on them. It does nothing when it runs.
pub fn good_group_laws()
    ensures { GoodGroupLaws }
{}
