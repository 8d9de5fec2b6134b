ghost use Rattle.std.specs.Prelude.{◌≡◌};
ghost use Rattle.vmv_snapshot.specs.Resolution.{Resolution, IsResolution, tree_of};

/// A program has one resolution: its tree determines how its code holds it, and the resolved tree of each procedure.
pub fn resolutions_are_unique()
    ensures { (one other : Resolution) → IsResolution one → IsResolution other → tree_of one ≡ tree_of other → one ≡ other }
{}
