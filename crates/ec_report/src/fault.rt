// Why there is no report.
ghost use Rattle.std.specs.Prelude.{◌≡◌};
ghost use Rattle.ec_report.specs.Faults.{fault_of};

use ec_store::StoreFault;

/// Why the records of a volume weren't reported.
#[derive(Clone, Copy, Debug, PartialEq, Eq)]
pub enum CheckFault {
    /// The store of this brick failed and counted it.
    Store(u8),
    /// There was no memory.
    NoMemory,
}

/// The fault of brick `b`'s store.
pub fn fault_of(b: u8, fault: StoreFault) -> CheckFault
    ensures { result ≡ fault_of b fault }
{
    match fault {
        StoreFault::Failed => CheckFault::Store(b),
        StoreFault::NoMemory => CheckFault::NoMemory,
    }
}
