ghost use Rattle.std.specs.Prelude.{◌≡◌, ◌↔◌, ℕ, Some, List, map, slice_get};
ghost use Rattle.std.specs.List.{Contains};
ghost use Rattle.vmv_tree.specs.Run.{name_of};
ghost use Rattle.vmv_tree.specs.Valid.{Valid};
ghost use Rattle.vmv_snapshot.specs.Resolution.{Resolution, procs_of, tree_of};
ghost use Rattle.vmv_zone.specs.declared.zone.Zone.{Zone};
ghost use Rattle.vmv_zone.specs.Zone.{vars_of, IsBelow, IsNormal, IsNormOf};
ghost use Rattle.vmv_assumption.specs.Assumed.{Assumed};
ghost use Rattle.vmv_cert.specs.declared.row.Row.{Row};
ghost use Rattle.vmv_cert.specs.Walk.{Walk, Way, IsMatch};
ghost use Rattle.vmv_cert.specs.Tables.{WalksRow, Accepted, IsRefused};
ghost use Rattle.vmv_check.specs.Walker.{HasParams};

/// A row holds for normal arguments of a call exactly where they are below the norm of its input.
pub fn matching_is_by_normed_inputs()
    ensures { (w : Walk) (callee : ℕ) (args norm : Zone) (row : Row) → IsNormal args → HasParams w.program callee (vars_of args) → IsNormOf row.input norm → IsMatch w callee args row ↔ (Contains w.rows row × (slice_get (map name_of (procs_of w.program)) callee ≡ Some row.proc) × (vars_of row.input ≡ vars_of args) × IsBelow args norm) }
{}

/// The walk of a row over a valid program ends in one way: it goes on from one state, or fails at one step.
pub fn a_row_walks_one_way()
    ensures { (w : Walk) (way other : Way) → Valid (tree_of w.program) → WalksRow w way → WalksRow w other → way ≡ other }
{}

/// No table is both accepted and refused.
pub fn accepted_tables_are_not_refused()
    ensures { (program : Resolution) (assumed : Assumed) (rows : List Row) (number step : ℕ) → Valid (tree_of program) → Accepted program assumed rows → IsRefused program assumed rows number step → ⊥ }
{}

/// A table is refused at one row and step.
pub fn tables_are_refused_in_one_way()
    ensures { (program : Resolution) (assumed : Assumed) (rows : List Row) (m n s t : ℕ) → Valid (tree_of program) → IsRefused program assumed rows m s → IsRefused program assumed rows n t → (m ≡ n) × (s ≡ t) }
{}
