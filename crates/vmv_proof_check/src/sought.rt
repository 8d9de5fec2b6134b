ghost use Rattle.std.specs.Prelude.{◌≡◌, ◌↔◌, ◌≤◌, ℕ, Some, IsTrue, map, length, slice_get, ⊤};
ghost use Rattle.vmv_tree.specs.Run.{name_of};
ghost use Rattle.vmv_snapshot.specs.Resolution.{Resolution, procs_of};
ghost use Rattle.vmv_zone.specs.declared.zone.Zone.{Zone};
ghost use Rattle.vmv_zone.specs.Zone.{vars_of, IsBelow, IsNormOf};
ghost use Rattle.vmv_cert.specs.declared.row.Reach.TheVariants.{Bottom};
ghost use Rattle.vmv_cert.specs.Tables.{Box, IsRowAbove};
ghost use Rattle.vmv_proof_check.specs.Parts.{HasRow};
ghost use Rattle.vmv_proof_check.specs.Work.{IsSought};

use crate::boxes::box_state;
use crate::entry::is_name;
use vmv_cert::{Reach, Row};
use vmv_snapshot::ParamBox;
use vmv_tree::Name;
use vmv_zone::Zone;

/// The entry and the box whose rows are looked for: its name, and the normed state of the box.
#[derive(Drop)]
pub(crate) struct Sought {
    pub(crate) name: Name,
    pub(crate) least: Zone,
}

/// The rows of the entry of this name above this box are looked for.
pub(crate) fn seek(name: Name, within: &ParamBox) -> Sought
    requires { length within.now ≤ 16 }
    ensures { IsSought name within.now result }
{
    let mut least = box_state(within);
    least.normalize();
    Sought { name, least }
}

/// Whether the state is below the norm of the input. It is over as many variables.
#[inline(never)]
fn is_below(least: &Zone, input: &Zone) -> bool
    requires { vars_of least.now ≡ vars_of input.now }
    ensures { (norm : Zone) × IsNormOf input.now norm × (IsTrue result ↔ IsBelow least.now norm) }
{
    let mut norm = *input;
    norm.normalize();
    least.below(&norm)
}

/// Whether the row is one that is looked for.
pub(crate) fn is_above(sought: &Sought, row: &Row) -> bool
    ensures { (program : Resolution) (number : ℕ) (box : Box) → slice_get (map name_of (procs_of program)) number ≡ Some sought.now.name → IsSought sought.now.name box sought.now → IsTrue result ↔ IsRowAbove program number box row.now }
{
    if !is_name(&row.proc, &sought.name) {
        return false;
    }
    if row.input.vars() != sought.least.vars() {
        return false;
    }
    is_below(&sought.least, &row.input)
}

/// Whether a row says that its procedure doesn't return.
fn is_dead(row: &Row) -> bool
    ensures { IsTrue result ↔ (row.now.result ≡ Bottom) }
{
    match row.result {
        Reach::Bottom => true,
        Reach::Value(_) => false,
    }
}

/// Whether the row is one that is looked for, and says that its procedure doesn't return.
fn is_dead_above(sought: &Sought, row: &Row) -> bool
    ensures { (program : Resolution) (number : ℕ) (box : Box) → slice_get (map name_of (procs_of program)) number ≡ Some sought.now.name → IsSought sought.now.name box sought.now → IsTrue result ↔ (IsRowAbove program number box row.now × (row.now.result ≡ Bottom)) }
{
    if !is_dead(row) {
        return false;
    }
    is_above(sought, row)
}

/// Whether some row that is looked for says that its procedure doesn't return.
pub(crate) fn has_dead(sought: &Sought, rows: &[Row]) -> bool
    ensures { (program : Resolution) (number : ℕ) (box : Box) → slice_get (map name_of (procs_of program)) number ≡ Some sought.now.name → IsSought sought.now.name box sought.now → IsTrue result ↔ HasRow program number box (λ row. row.result ≡ Bottom) rows.now }
{
    for row in rows {
        if is_dead_above(sought, row) {
            return true;
        }
    }
    false
}
