// What comes next of a call.

use ec_wire::Answer;

/// What comes where nobody is waited for any more: the next stage, or the answer.
#[derive(Debug, Drop)]
pub enum Next<P> {
    Go(P),
    Say(Answer),
}
