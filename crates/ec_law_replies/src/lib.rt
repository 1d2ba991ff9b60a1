// What a built call was replied, where it is answered.
//
// `Replies` says what bytes and names come of which replies, and `Laws` that they do of each call that is so answered, and which calls and
// answers change nothing. Nothing of it runs.
#![tactic(auto)]

ghost use Rattle.ec_law_replies.specs.Laws.{CallReplyLaws};

use ec_calls::AnyCall;
use ec_law_causes::call_cause_laws;
use ec_txn::Conduct;

/// A read and a readdir that are answered with content were replied it by bricks of the good group; a call that only reads changes
/// nothing, and neither has a call whose answer comes before changes. It does nothing when it runs.
pub fn call_reply_laws()
    ensures { CallReplyLaws (⟦<AnyCall as Conduct>⟧.stands) }
{
    call_cause_laws();
}
