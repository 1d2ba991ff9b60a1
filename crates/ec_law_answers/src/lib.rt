// What a call that is answered has done: an answer which says that something was changed comes after the commit.
//
// `Answered` says which answers these are and what is meant by the commit of a call, and `Laws` what follows of the log of a
// world. Nothing of it runs.
#![tactic(auto)]

ghost use Rattle.ec_clients.specs.Calls.{tabled};
ghost use Rattle.ec_law_answers.specs.Laws.{AnswerLaws};

use ec_calls::AnyCall;
use ec_law_calls::world_laws;
use ec_txn::Conduct;

/// Let a cluster and its clients, which run built calls, be as what has come of the log says, and the log a run over bricks
/// that stand. Where a call is answered that it changed a gfid, K bricks have done the PostOp of its turn there by then, on
/// records without a mark, and none had as the call was made; and they have at each later moment. So it is of a write of one
/// byte or more, a truncate, a create or mkdir, an unlink or a setattr. It does nothing when it runs.
pub fn answer_laws()
    ensures { AnswerLaws (⟦<AnyCall as Conduct>⟧.stands) (tabled (⟦<AnyCall as Conduct>⟧.begins) (⟦<AnyCall as Conduct>⟧.goes)) }
{
    world_laws();
}
