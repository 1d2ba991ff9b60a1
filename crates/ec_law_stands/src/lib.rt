// That the bricks of a world stand for its flat files at each moment of its log, so that a further log may begin with them.
//
// `Others` says what the bricks hold of what the kind of a gfid has none of, and `Laws` what follows of the log of every world. Nothing
// of these runs.
#![tactic(auto)]

ghost use Rattle.ec_clients.specs.Calls.{tabled};
ghost use Rattle.ec_law_stands.specs.Laws.{WorldStandLaws};

use ec_calls::AnyCall;
use ec_law_calls::world_laws;
use ec_law_flats::flat_name_laws;
use ec_law_heads::{restart_laws, world_head_laws};
use ec_law_names::{call_built_laws, world_name_laws};
use ec_law_parts::world_flat_laws;
use ec_law_sizes::world_size_laws;
use ec_law_stripes::{begin_laws, world_held_laws};
use ec_txn::Conduct;

/// Let a cluster and its clients, which run built calls, be as what has come of the log says, and the log a run over bricks that
/// stand for a tree. Then at each moment of it, of each gfid, the bricks hold the names of what is no directory and the stripes of what
/// is no file; and they stand for the flat file, where as the log began the records were of the volume, past the sizes stood zeros, and
/// no version of the tree was marked, as it is of fresh bricks; and a further log may begin with the
/// bricks, once they were stopped and started, and what is remembered of the tree. It does nothing when it runs.
pub fn world_stand_laws()
    ensures { WorldStandLaws (⟦<AnyCall as Conduct>⟧.stands) (tabled (⟦<AnyCall as Conduct>⟧.begins) (⟦<AnyCall as Conduct>⟧.goes)) }
{
    world_laws();
    world_flat_laws();
    world_head_laws();
    restart_laws();
    call_built_laws();
    world_name_laws();
    flat_name_laws();
    world_size_laws();
    begin_laws();
    world_held_laws();
}
