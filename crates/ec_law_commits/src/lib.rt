// Where the flat files change: by one commit of each call that is answered that it changed something, between the call and its
// answer.
//
// `Commits` says which entries are the commits of a call and how they change the flat files, and `Laws` what follows of the log
// of a world. Nothing of it runs.
#![tactic(auto)]

ghost use Rattle.ec_clients.specs.Calls.{tabled};
ghost use Rattle.ec_law_commits.specs.Laws.{CommitLaws};

use ec_calls::AnyCall;
use ec_law_answers::answer_laws;
use ec_law_calls::world_laws;
use ec_txn::Conduct;

/// Let a cluster and its clients, which run built calls, be as what has come of the log says, and the log a run over bricks
/// that stand. Where a call is answered that it changed a gfid, one entry of the log, between its call and its answer, is its
/// commit there: by that entry the flat file becomes what the call makes of it, and no other flat file changes. No other entry
/// of the log, before or after, is a commit of the call on that gfid. And of any log, no call commits twice on a gfid, and an
/// entry by which one commits is the commit of one call on one gfid and changes its flat file alone. It does nothing when it
/// runs.
pub fn commit_laws()
    ensures { CommitLaws (⟦<AnyCall as Conduct>⟧.stands) (tabled (⟦<AnyCall as Conduct>⟧.begins) (⟦<AnyCall as Conduct>⟧.goes)) }
{
    world_laws();
    answer_laws();
}
