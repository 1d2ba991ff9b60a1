// The stripes that the bricks hold of files, in the log of every world.
//
// `Bytes` reads a file as bricks keep it, `Begins` says with what its machine of pieces begins, and `Laws` what follows.
// Nothing of it runs.
#![tactic(auto)]

ghost use Rattle.ec_clients.specs.Calls.{tabled};
ghost use Rattle.ec_law_stripes.specs.Built.{CallBuiltLaws};
ghost use Rattle.ec_law_stripes.specs.Finals.{CallFinalLaws};
ghost use Rattle.ec_law_stripes.specs.HeldStripes.{HeldInEveryLog, WorldHeldLaws};
ghost use Rattle.ec_law_stripes.specs.Laws.{BeginLaws, ByteLaws};
ghost use Rattle.ec_law_stripes.specs.Striped.{StripedInEveryLog};
ghost use Rattle.std.specs.Prelude.{ℕ};

use ec_calls::AnyCall;
use ec_law_calls::{call_laws, world_laws};
use ec_law_files::world_stripe_laws;
use ec_law_heads::world_head_laws;
use ec_law_parts::world_data_laws;
use ec_txn::Conduct;

/// A file of which the low eight bits of each byte are read fits what bricks do, so the machine of its stripes has the pieces of
/// their records; and after each log in which data owe nothing the bricks hold the codes of one stripe at each closed stripe. It does
/// nothing when it runs.
#[tactic(auto, using(crate::proofs::Bytes::byte_laws))]
pub fn byte_laws()
    ensures { (k : ℕ) (rows : ℕ → ℕ → ℕ) → ByteLaws k rows }
{}

/// Bricks that stand for a tree in which past the size of each file stand zeros stand for each file of it, stripe by stripe. Fresh
/// bricks have such a tree, and every log leaves one where it began with one. It does nothing when it runs.
#[tactic(auto, using(crate::proofs::Begins::begin_laws))]
pub fn begin_laws()
    ensures { BeginLaws }
{}

/// After every log that begins with bricks that stand for a tree in which past the sizes stand zeros, in which the calls are plain, keep
/// the conduct in order and make one thing of their file each: there are plans of a file's stripes by which the log owes nothing, and
/// at each closed stripe the bricks hold the codes of one stripe. It does nothing when it runs.
#[tactic(auto, using(crate::proofs::StripeLogs::striped_logs))]
pub fn striped_laws()
    ensures { StripedInEveryLog }
{}

/// After every such log whose calls are built, have bytes to write, and send the data and the PostOps of a gfid in one turn: the bricks
/// hold each closed stripe of the flat file that the log makes. It does nothing when it runs.
pub fn held_stripe_laws()
    ensures { HeldInEveryLog }
{}

/// A built call asks for no content once it has sent data or a PostOp, and it sends neither if it is a write of no bytes. It does
/// nothing when it runs.
pub fn call_final_laws()
    ensures { CallFinalLaws (⟦<AnyCall as Conduct>⟧.stands) }
{}

/// The op of a built call is one that is built: no rename, no rmdir and no scrub. It does nothing when it runs.
pub fn call_built_laws()
    ensures { CallBuiltLaws (⟦<AnyCall as Conduct>⟧.stands) }
{}

/// Let a cluster and its clients, which run built calls, be as what has come of the log says, and the log a run over bricks that stand
/// for a tree. Then at each moment of it the data requests and the PostOps of a call on a gfid are of one turn; and so the bricks hold
/// each closed stripe of each file that the log makes, where past the sizes stood zeros. It does nothing when it runs.
pub fn world_held_laws()
    ensures { WorldHeldLaws (⟦<AnyCall as Conduct>⟧.stands) (tabled (⟦<AnyCall as Conduct>⟧.begins) (⟦<AnyCall as Conduct>⟧.goes)) }
{
    call_laws();
    world_laws();
    world_data_laws();
    world_stripe_laws();
    world_head_laws();
    held_stripe_laws();
    call_final_laws();
    call_built_laws();
}
