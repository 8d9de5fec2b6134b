//! A file opened as a store, and closed.

ghost use Rattle.std.specs.Prelude.{◌≡◌, false, IfOk};

use sqlite::{Connection, Error, ErrorCode, File, FileStore};
use std::alloc::Global;
use std::rt::HostRuntime;
use vmv_keeper::{KeepFault, Keeper};
use vmv_sql::SqlKeeper;
use vmv_vault::VaultFault;

/// A store over a file.
pub type FileKeeper = SqlKeeper<FileStore<File>>;

/// A connection to the file, which is made where there is none.
fn connect(rt: &HostRuntime, name: &str) -> Result<Connection<FileStore<File>>, VaultFault>
    ensures { IfOk result (λ connection. connection.in_transaction ≡ false) }
{
    match Connection::open(rt, name) {
        Ok(connection) => Ok(connection),
        Err(Error::SqliteFailure(ErrorCode::OutOfMemory)) => Err(VaultFault::Memory),
        Err(_) => Err(VaultFault::Failed),
    }
}

/// The store over a connection, made ready. No call of it has failed.
fn ready(alloc: Global, connection: Connection<FileStore<File>>) -> Result<FileKeeper, VaultFault>
    requires { connection.in_transaction ≡ false }
    ensures { IfOk result (λ keeper. ⟦<FileKeeper as Keeper>⟧.fault_count keeper ≡ 0) }
{
    let mut keeper = SqlKeeper::adopt(connection);
    match keeper.ready(alloc) {
        Ok(()) => Ok(keeper),
        Err(KeepFault::Failed) => Err(VaultFault::Failed),
        Err(KeepFault::Memory) => Err(VaultFault::Memory),
    }
}

/// The store over the file, made ready. No call of it has failed.
pub(crate) fn open(rt: &HostRuntime, alloc: Global, name: &str) -> Result<FileKeeper, VaultFault>
    ensures { IfOk result (λ keeper. ⟦<FileKeeper as Keeper>⟧.fault_count keeper ≡ 0) }
{
    ready(alloc, connect(rt, name)?)
}

/// Closes a store's file. What a log beside it holds is written into it; where that fails, the log stays, and the
/// next opening reads it.
pub(crate) fn close(keeper: FileKeeper) {
    let _ = keeper.into_connection().close();
}
