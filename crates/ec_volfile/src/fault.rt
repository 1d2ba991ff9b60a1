// Why a volume file is refused.
ghost use Rattle.std.specs.Prelude.{◌≡◌};
ghost use Rattle.ec_volfile.specs.declared.fault.VolumeFault.TheVariants.{NoMemory};

use std::alloc::{AllocError, AllocFailed};
use thiserror::Error;

/// Why a volume file is refused. Of several faults on one line the first of these is answered.
#[derive(Clone, Copy, Debug, PartialEq, Eq, Drop, Error)]
pub enum VolumeFault {
    /// The file has more than 2^20 bytes.
    #[error("toolong")]
    TooLong,

    /// The line can't stand there, for another cause than those below.
    #[error("badline")]
    BadLine,

    /// A second `subvolumes` in a section, and in the disperse section a named option a second time or a subvolume
    /// that is named twice.
    #[error("twice")]
    Twice,

    /// The value of a named option is none that it can have.
    #[error("badvalue")]
    BadValue,

    /// A second section has the type `cluster/disperse`.
    #[error("twodisperse")]
    TwoDisperse,

    /// The disperse section ends without a redundancy.
    #[error("noredundancy")]
    NoRedundancy,

    /// The disperse section ends, and its `n` subvolumes with redundancy `r` are no geometry.
    #[error("badgeometry {n} {r}")]
    BadGeometry { n: u32, r: u32 },

    /// The file ends within a section.
    #[error("noend")]
    NoEnd,

    /// The file ends without a disperse section.
    #[error("nodisperse")]
    NoDisperse,

    /// There was no memory. The line that stands beside it tells nothing.
    #[error("nomemory")]
    NoMemory,
}

impl From<AllocError> for VolumeFault {
    ghost from_gives = { λ _ e. e ≡ NoMemory };

    fn from(_e: AllocError) -> VolumeFault {
        VolumeFault::NoMemory
    }
}

impl<T: Drop> From<AllocFailed<T>> for VolumeFault {
    ghost from_gives = { λ _ e. e ≡ NoMemory };

    fn from(_e: AllocFailed<T>) -> VolumeFault {
        VolumeFault::NoMemory
    }
}
