// The size and the attribute of flat files, beside those of the machine of pieces and of the records that bricks have of them.
//
// `Sizes` says what is compared, `Laws` what follows for the turns of every log, and `Records` for the records after it, and in the log
// of every world. Nothing of it runs.
#![tactic(auto)]

ghost use Rattle.ec_clients.specs.Calls.{tabled};
ghost use Rattle.ec_law_data.specs.Forms.{Shape};
ghost use Rattle.ec_law_data.specs.Reading.{Reading};
ghost use Rattle.ec_law_sizes.specs.Laws.{SizeLaws};
ghost use Rattle.ec_law_sizes.specs.Records.{RecordSizeLaws, WorldSizeLaws};
ghost use Rattle.std.specs.Prelude.{◌≡◌};

use ec_calls::AnyCall;
use ec_law_calls::world_laws;
use ec_law_heads::world_head_laws;
use ec_law_parts::world_flat_laws;
use ec_txn::Conduct;

/// In every log that begins with bricks that stand for a tree, in which no call heals or sweeps, each call keeps the conduct in order
/// and leaves no grants, and the PostOps of a call on the gfid are of one turn: by plans for which the log owes nothing and whose turns
/// plan the sizes that their calls make, the flat file has the size of a turn's group as the turn commits. It does nothing when it runs.
#[tactic(auto, using(crate::proofs::Logs::size_laws))]
pub fn size_laws<P, V, C, U>()
    ensures { (R : Reading P V C U Shape) → R.new.size ≡ 0 → SizeLaws R }
{}

/// After every such log in which besides the Makes of a call on the gfid are of one kind: each record at the flat version has the size
/// and the attribute of the flat file, be it a file, a directory or neither. It does nothing when it runs.
#[tactic(auto, using(crate::proofs::Records::record_size_laws))]
pub fn record_size_laws()
    ensures { RecordSizeLaws }
{}

/// Let a cluster and its clients, which run built calls, be as what has come of the log says, and the log a run over bricks that stand
/// for a tree. Then at each moment of it, of each gfid, each record at the flat version has the size and the attribute of the flat
/// file. It does nothing when it runs.
pub fn world_size_laws()
    ensures { WorldSizeLaws (⟦<AnyCall as Conduct>⟧.stands) (tabled (⟦<AnyCall as Conduct>⟧.begins) (⟦<AnyCall as Conduct>⟧.goes)) }
{
    world_laws();
    world_flat_laws();
    world_head_laws();
    record_size_laws();
}
