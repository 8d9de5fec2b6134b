ghost use Rattle.std.specs.Prelude.{◌≡◌, ◌↔◌, Some, map, slice_get, IsTrue};
ghost use Rattle.std.specs.List.{All};
ghost use Rattle.vmv_tree.specs.Run.{name_of};
ghost use Rattle.vmv_tree.specs.Tree.{Item};
ghost use Rattle.vmv_snapshot.specs.declared.code.Code.{Code};
ghost use Rattle.vmv_snapshot.specs.Resolution.{procs_of, IsResolution};
ghost use Rattle.vmv_zone.specs.Zone.{vars_of};
ghost use Rattle.vmv_cert.specs.Tables.{IsFormed};

use crate::loops::block_loops;
use crate::sites::are_sites;
use vmv_cert::Row;
use vmv_snapshot::{ProcId, Snapshot};
use vmv_zone::Zone;

/// Whether each state is over so many variables.
fn are_over(zones: &[Zone], vars: u8) -> bool
    ensures { IsTrue result ↔ All (λ z. vars_of z ≡ vars) zones.now }
{
    for zone in zones {
        if zone.vars() != vars {
            return false;
        }
    }
    true
}

/// Whether each part of a row of this procedure is over that.
pub(crate) fn is_formed(snapshot: &Snapshot, proc: ProcId, row: &Row) -> bool
    requires resolution { IsResolution snapshot.now }
    requires named { slice_get (map name_of (procs_of snapshot.now)) proc.0 ≡ Some row.now.proc }
    ensures { IsTrue result ↔ ((item : Item) × (code : Code) × IsFormed snapshot.now row.now proc.0 item code) }
{
    let code = snapshot.code(proc);
    if row.input.vars() as usize != snapshot.params(proc).len() {
        return false;
    }
    if row.keeps.len() != block_loops(code.block.as_slice()) {
        return false;
    }
    if !are_over(row.keeps.as_slice(), code.vars) {
        return false;
    }
    are_sites(snapshot, proc, row.unproved.as_slice())
}
