// The laws of the conduct.
ghost use Rattle.ec_conduct.specs.Laws.{ConductLaws};

use ec_attr::brick_laws;

/// The laws of the conduct, for the proofs that stand on them. It does nothing when it runs.
pub fn conduct_laws()
    ensures { ConductLaws }
{
    brick_laws();
}
