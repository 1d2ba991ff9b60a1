// Why a call on a brick folder was not done.
ghost use Rattle.std.specs.Prelude.{◌≡◌, ◌≤◌};
ghost use Rattle.ec_store.specs.Causes.{Rose};
ghost use Rattle.ec_folder.specs.declared.fault.Fault.TheVariants.{NoMemory};

use ec_attr::BadName;
use ec_store::StoreFault;
use std::alloc::AllocError;
use std::io;
use std::io::ErrorKind;

/// Why a call on a brick folder was not done, not counted yet.
#[derive(Clone, Copy, Debug, PartialEq, Eq)]
pub enum Fault {
    /// The file system refused, or a file is not as it is to be.
    Failed,
    /// There was no memory.
    NoMemory,
}

impl From<AllocError> for Fault {
    ghost from_gives = { λ _ e. e ≡ NoMemory };

    fn from(_e: AllocError) -> Fault {
        Fault::NoMemory
    }
}

impl From<io::Error> for Fault {
    fn from(e: io::Error) -> Fault {
        if e.kind() == ErrorKind::OutOfMemory {
            Fault::NoMemory
        } else {
            Fault::Failed
        }
    }
}

impl From<BadName> for Fault {
    fn from(e: BadName) -> Fault {
        match e {
            BadName::NotAName => Fault::Failed,
            BadName::NoMemory => Fault::NoMemory,
        }
    }
}

/// The fault as a store answers it. A failure is counted.
pub fn counted(faults: &mut u64, fault: Fault) -> StoreFault
    ensures later { faults.old ≤ faults.new }
    ensures rose { result ≡ StoreFault.Failed → Rose faults.old faults.new }
{
    match fault {
        Fault::Failed => {
            *faults = faults.saturating_add(1);
            StoreFault::Failed
        }
        Fault::NoMemory => StoreFault::NoMemory,
    }
}
