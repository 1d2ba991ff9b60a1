// The laws of states that are known less.
ghost use Rattle.ec_brick.specs.KnownLaws.{KnownLaws};

/// What a brick does of which less is known is allowed to each brick that it may be, for the proofs that follow a log
/// alone. It does nothing when it runs.
pub fn known_laws()
    ensures { KnownLaws }
{}
