//! Faults of the store, and how they are counted.

ghost use Rattle.std.specs.Prelude.{◌≡◌};
ghost use Rattle.vmv_keeper.specs.Outside.{Counts};

use sqlite::{Error, ErrorCode};
use vmv_keeper::KeepFault;

/// What an error of the connection is for the store.
pub(crate) fn cause(error: Error) -> KeepFault {
    match error {
        Error::SqliteFailure(ErrorCode::OutOfMemory) => KeepFault::Memory,
        _ => KeepFault::Failed,
    }
}

/// Counts an answer that is a fault.
pub(crate) fn noted<T>(faults: &mut u64, got: Result<T, KeepFault>) -> Result<T, KeepFault>
    ensures same { result ≡ got }
    ensures counted { Counts result faults.old faults.new }
{
    if let Err(KeepFault::Failed) = got {
        *faults = faults.saturating_add(1);
    }
    got
}
