ghost use Rattle.std.specs.Prelude.{◌≡◌, false, None};
ghost use Rattle.vmv_keeper.specs.Outside.{Counts};

use crate::benches::benches;
use crate::committing::commit;
use crate::faults::noted;
use crate::making::ready;
use crate::reading::{load, replies, reply_of, submission, text};
use sqlite::{Alter, Connection};
use std::alloc::Global;
use vmv_edge::Text;
use vmv_keeper::{Benches, Change, Held, KeepFault, Keeper, Kept, Label, Submitted};

/// A store of projects and of kept replies over a connection. It doesn't tell its rows.
///
/// A change is one transaction. A statement that is refused is a counted fault, and so is a row that can't be read
/// or that isn't well formed.
#[derive(Drop)]
pub struct SqlKeeper<S: Alter> {
    connection: Connection<S>,
    faults: u64,
    ghost settled: { connection.in_transaction ≡ false },
}

impl<S: Alter> SqlKeeper<S> {
    ghost use Rattle.vmv_sql.specs.Over.{connection_of};

    /// Takes an opened connection that is in no transaction, without memory. No call has failed yet.
    pub fn adopt(connection: Connection<S>) -> SqlKeeper<S>
        requires { connection.in_transaction ≡ false }
        ensures over { connection_of result ≡ connection }
        ensures unused { ⟦<SqlKeeper<S> as Keeper>⟧.fault_count result ≡ 0 }
    {
        SqlKeeper {
            connection,
            faults: 0,
        }
    }

    /// Gives the connection back, in no transaction, without memory.
    pub fn into_connection(self) -> Connection<S>
        ensures same { result ≡ connection_of self }
        ensures settled { result.in_transaction ≡ false }
    {
        let SqlKeeper {
            connection,
            faults: _,
        } = self;
        connection
    }

    /// Makes the tables of mark 2 in an empty store. In one of mark 1 it makes what is missing, in one transaction,
    /// and each accepted version was judged against the one before it. A store of another mark is a counted fault.
    pub fn ready(&mut self, alloc: Global) -> Result<(), KeepFault>
        ensures { Counts result (⟦<SqlKeeper<S> as Keeper>⟧.fault_count self.old) (⟦<SqlKeeper<S> as Keeper>⟧.fault_count self.new) }
    {
        let got = ready(&mut self.connection, alloc);
        noted(&mut self.faults, got)
    }
}

impl<S: Alter> Keeper for SqlKeeper<S> {
    ghost told = { λ _. None };

    ghost fault_count = { λ keeper. keeper.faults };

    fn projects(&mut self, alloc: Global) -> Result<Benches, KeepFault> {
        let got = benches(&mut self.connection, alloc);
        noted(&mut self.faults, got)
    }

    fn load(
        &mut self,
        alloc: Global,
        owner: &Label,
        project: &Label,
    ) -> Result<Option<Held>, KeepFault> {
        let got = load(&mut self.connection, alloc, owner, project);
        noted(&mut self.faults, got)
    }

    fn text(
        &mut self,
        alloc: Global,
        owner: &Label,
        project: &Label,
        version: u32,
    ) -> Result<Option<Text>, KeepFault> {
        let got = text(&mut self.connection, alloc, owner, project, version);
        noted(&mut self.faults, got)
    }

    fn submission(
        &mut self,
        alloc: Global,
        owner: &Label,
        project: &Label,
        number: u32,
    ) -> Result<Option<Submitted>, KeepFault> {
        let got = submission(&mut self.connection, alloc, owner, project, number);
        noted(&mut self.faults, got)
    }

    fn reply_of(
        &mut self,
        alloc: Global,
        caller: &Label,
        id: &Label,
    ) -> Result<Option<Kept>, KeepFault> {
        let got = reply_of(&mut self.connection, alloc, caller, id);
        noted(&mut self.faults, got)
    }

    fn replies(&mut self, _alloc: Global, caller: &Label) -> Result<u32, KeepFault> {
        let got = replies(&mut self.connection, caller);
        noted(&mut self.faults, got)
    }

    fn commit(&mut self, alloc: Global, change: &Change) -> Result<(), KeepFault> {
        let got = commit(&mut self.connection, alloc, change);
        noted(&mut self.faults, got)
    }

    fn faults(&self) -> u64 {
        self.faults
    }
}
