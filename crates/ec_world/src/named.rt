// The messages that scripts name.
ghost use Rattle.std.specs.Prelude.{◌≡◌, true, is_some, IfSome};
ghost use Rattle.ec_cluster.specs.Views.{flight};
ghost use Rattle.ec_world.specs.Refusals.{IsFound, missing};

use crate::refused::Refused;
use ec_cluster::Cluster;
use ec_wire::Which;

/// The number of the message in flight that a script names.
pub fn find(cluster: &Cluster, which: Which) -> Option<u64>
    ensures found { IsFound cluster.now which result }
{
    match which {
        Which::Number(no) => {
            if cluster.get(no).is_some() {
                Some(no)
            } else {
                None
            }
        }
        Which::ToBrick { client, brick } => cluster.first_between(client, brick, true),
        Which::ToClient { client, brick } => cluster.first_between(client, brick, false),
    }
}

/// The refusal of an event whose message isn't in flight.
pub fn missing(which: Which) -> Refused
    ensures { result ≡ missing which }
{
    match which {
        Which::Number(no) => Refused::NoMessage(no),
        Which::ToBrick { client, brick } => Refused::NoneBetween { client, brick },
        Which::ToClient { client, brick } => Refused::NoneBetween { client, brick },
    }
}
