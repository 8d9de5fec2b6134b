ghost use Rattle.std.specs.Prelude.{◌≡◌, ◌<◌, ◌≤◌, ℕ, Some, List, length, slice_get};
ghost use Rattle.std.specs.List.{Contains};
ghost use Rattle.vmv_snapshot.specs.Procs.{outsides};
ghost use Rattle.vmv_snapshot.specs.Resolution.{Resolution, tree_of, IsResolution};
ghost use Rattle.vmv_demands.specs.declared.demand.Demand.{Demand};
ghost use Rattle.vmv_demands.specs.Demands.{AreDemands};

/// There are at most 32 demands.
pub fn demands_are_few()
    ensures { (s : Resolution) (n : ℕ) (demands : List Demand) → AreDemands s n demands → length demands ≤ 32 }
{}

/// Each demand is on an outside name of the program.
pub fn demands_are_on_outside_names()
    ensures { (s : Resolution) (n : ℕ) (demands : List Demand) (demand : Demand) → IsResolution s → AreDemands s n demands → Contains demands demand → Contains (outsides (tree_of s)) demand.name }
{}

/// A procedure has one list of demands.
pub fn demands_are_determined()
    ensures { (s : Resolution) (n : ℕ) (demands others : List Demand) → AreDemands s n demands → AreDemands s n others → demands ≡ others }
{}

/// No two demands have the same name with the same condition.
pub fn demands_differ()
    ensures { (s : Resolution) (n i j : ℕ) (demands : List Demand) (one other : Demand) → AreDemands s n demands → i < j → slice_get demands i ≡ Some one → slice_get demands j ≡ Some other
        → one.name ≡ other.name → one.cond ≡ other.cond → ⊥ }
{}
