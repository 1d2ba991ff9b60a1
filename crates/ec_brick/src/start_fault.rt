// Why a store isn't opened.
ghost use Rattle.std.specs.Prelude.{◌≡◌, true};
ghost use Rattle.ec_brick.specs.StartFault.{is_of_store, of_store};

use ec_attr::{Config, Gfid};
use ec_store::StoreFault;
use thiserror::Error;

/// Why a store isn't opened. Of one gfid the first of these is answered, of several gfids that of the lowest.
#[derive(Clone, Copy, Debug, PartialEq, Eq, Drop, Error)]
pub enum StartFault {
    /// The store failed and counted it.
    #[error("the store failed")]
    Failed,

    /// A head has this config, which isn't the volume's.
    #[error("a head of another volume")]
    Config(Config),

    /// The head of this gfid has numbers that no brick writes, or the gfid is none.
    #[error("a head that no brick writes")]
    Head(Gfid),

    /// There was no memory.
    #[error("nomemory")]
    NoMemory,
}

/// The fault of a start that a fault of its store is.
pub fn of_store(e: StoreFault) -> StartFault
    ensures value { result ≡ of_store e }
    ensures of_store { is_of_store result ≡ true }
{
    match e {
        StoreFault::Failed => StartFault::Failed,
        StoreFault::NoMemory => StartFault::NoMemory,
    }
}
