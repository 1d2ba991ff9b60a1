// Why a line of a script is refused.
ghost use Rattle.std.specs.Prelude.{◌≡◌};
ghost use Rattle.ec_script.specs.declared.fault.LineFault.TheVariants.{NoMemory};

use std::alloc::{AllocError, AllocFailed};
use thiserror::Error;

/// Why a line of a script is refused. Of several faults the first of TooMany, TooLong and BadEvent is answered, and
/// after these the one of the first word from the left; of one word's data Bulky comes last.
#[derive(Clone, Copy, Debug, PartialEq, Eq, Drop, Error)]
pub enum LineFault {
    /// The line has more than 2,200,000 bytes.
    #[error("toolong")]
    TooLong,

    /// The line comes after 2^20 others. One who counts lines answers it; a line alone never has it.
    #[error("toomany")]
    TooMany,

    /// No line has these words: the first word, the word of a call, another fixed word or a phase is unknown, or there
    /// are more words or fewer.
    #[error("badevent")]
    BadEvent,

    /// A word in the place of a number, a client, a brick or a message isn't one, or bricks don't rise.
    #[error("badnumber")]
    BadNumber,

    /// Hexadecimal digits are none, or lack, at this place in the line, counted from 0.
    #[error("badhex {0}")]
    BadHex(u64),

    /// The bytes are none that a name can have.
    #[error("badname")]
    BadName,

    /// There are more than 2^21 bytes of data.
    #[error("bulky")]
    Bulky,

    /// There was no memory.
    #[error("nomemory")]
    NoMemory,
}

impl From<AllocError> for LineFault {
    ghost from_gives = { λ _ e. e ≡ NoMemory };

    fn from(_e: AllocError) -> LineFault {
        LineFault::NoMemory
    }
}

impl<T: Drop> From<AllocFailed<T>> for LineFault {
    ghost from_gives = { λ _ e. e ≡ NoMemory };

    fn from(_e: AllocFailed<T>) -> LineFault {
        LineFault::NoMemory
    }
}
