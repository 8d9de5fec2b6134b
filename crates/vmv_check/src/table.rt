ghost use Rattle.std.specs.Prelude.{◌<◌, ◌^◌, length, IfOk, IfErr};
ghost use Rattle.vmv_assumption.specs.Assumed.{cond_of};
ghost use Rattle.vmv_cert.specs.Tables.{Accepted, IsRefused};

use crate::refused::Refused;
use crate::walk::Walker;
use vmv_assumption::Assumption;
use vmv_cert::Table;
use vmv_snapshot::Snapshot;

/// Looks through a table for a program, under what is assumed of its outside names. It succeeds only where the table is
/// accepted, and fails only with the first row whose walk fails and the step at which it does. It takes no memory.
pub fn check_table(snapshot: &Snapshot, assumed: &Assumption, table: &Table) -> Result<(), Refused>
    requires { length table.now.rows < 2 ^ 32 }
    ensures accepted { IfOk result (λ done. Accepted snapshot.now (cond_of assumed.now) table.now.rows) }
    ensures refused { IfErr result (λ at. IsRefused snapshot.now (cond_of assumed.now) table.now.rows at.row at.step) }
{
    let _program = snapshot.program(); // it is valid
    let rows = table.rows.as_slice();
    for (i, row) in rows.iter().enumerate() {
        let walker = Walker {
            snapshot,
            assumed,
            rows,
            row,
        };
        if let Some(step) = walker.failing_step() {
            let row = i as u32 + 1;
            return Err(Refused { row, step });
        }
    }
    Ok(())
}
