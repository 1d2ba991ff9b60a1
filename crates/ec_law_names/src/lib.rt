// What the bricks of a world hold of its directories: the names and children of the flat files that the history of its log makes.
//
// `Laws` says it of the log of every world, with no plans of turns and no laws left open. `Built` says that a call is one of those
// that are built. Nothing of these runs.
#![tactic(auto)]

ghost use Rattle.ec_clients.specs.Calls.{tabled};
ghost use Rattle.ec_law_names.specs.Built.{CallBuiltLaws};
ghost use Rattle.ec_law_names.specs.Laws.{WorldNameLaws};

use ec_calls::AnyCall;
use ec_law_calls::{call_laws, world_laws};
use ec_law_flats::flat_name_laws;
use ec_law_heads::world_head_laws;
use ec_law_parts::world_flat_laws;
use ec_law_plans::{name_laws, planned_history};
use ec_law_writes::write_guard_laws;
use ec_txn::Conduct;

/// No call that is built is a rename, an rmdir or a scrub. It does nothing when it runs.
pub fn call_built_laws()
    ensures { CallBuiltLaws (⟦<AnyCall as Conduct>⟧.stands) }
{}

/// Let a cluster and its clients, which run built calls, be as what has come of the log says, and the log a run over bricks that
/// stand for a tree. Then at each moment of it, of each gfid whose flat file is a
/// directory, each brick's unmarked record at the flat file's version leads each closed name to the flat file's child. It does
/// nothing when it runs.
pub fn world_name_laws()
    ensures { WorldNameLaws (⟦<AnyCall as Conduct>⟧.stands) (tabled (⟦<AnyCall as Conduct>⟧.begins) (⟦<AnyCall as Conduct>⟧.goes)) }
{
    call_laws();
    world_laws();
    call_built_laws();
    world_flat_laws();
    world_head_laws();
    name_laws();
    flat_name_laws();
    planned_history();
    write_guard_laws();
}
