ghost use Rattle.std.specs.Prelude.{◌≡◌, ◌+◌, ◌*◌, ◌≤◌, ℕ, ℤ, Option, Some, List, length, slice_get};
ghost use Rattle.vmv_tree.specs.Tree.{Item};
ghost use Rattle.vmv_snapshot.specs.declared.code.Code.{Code};
ghost use Rattle.vmv_snapshot.specs.declared.code.ProcId.{ProcId};
ghost use Rattle.vmv_snapshot.specs.View.{code_of};
ghost use Rattle.vmv_zone.specs.declared.zone.Zone.{Zone};
ghost use Rattle.vmv_zone.specs.Zone.{vars_of};
ghost use Rattle.vmv_cert.specs.declared.row.Row.{Row};
ghost use Rattle.vmv_cert.specs.Walk.{Walk, goes, IsMatch, AreAllowed};
ghost use Rattle.vmv_cert.specs.Tables.{WalksBody};
ghost use Rattle.vmv_pass.specs.Callees.{block_callees};
ghost use Rattle.vmv_pass.specs.Source.{by_row};
ghost use Rattle.vmv_pass.specs.Holds.{HoldsRow};
ghost use Rattle.vmv_pass.specs.Room.{rank};

/// A row's walk that goes on to its end holds, with a state of arguments for each call of a helper that it meets.
pub fn rows_that_hold_meet_calls()
    ensures { (w : Walk) (item : Item) (code : Code) (e : Zone) → WalksBody w item code (goes e) → (calls : List (Option Zone)) × HoldsRow (by_row w) item code e calls }
{}

/// Where a row's walk holds and meets a call, some row of the table matches its arguments, and each site that all matching
/// rows list is one that the row lists.
pub fn calls_that_are_met_have_rows()
    ensures { (w : Walk) (item : Item) (code : Code) (e : Zone) (calls : List (Option Zone)) (c : ℕ) (callee : ProcId) (args : Zone) → HoldsRow (by_row w) item code e calls → slice_get (block_callees (code_of code).block) c ≡ Some callee → slice_get calls c ≡ Some (Some args) → ((row : Row) × IsMatch w callee.0 args row) × AreAllowed w callee.0 args }
{}

/// A threshold state over at most 16 variables can't have risen more often than 289 times the number of thresholds and 17.
pub fn ranks_are_few()
    ensures { (ts : List ℤ) (z : Zone) → vars_of z ≤ 16 → rank ts z ≤ 289 * length ts + 17 }
{}
