ghost use Rattle.std.specs.Prelude.{◌≡◌, ℕ, List};
ghost use Rattle.std.specs.List.{Contains};
ghost use Rattle.vmv_tree.specs.declared.ends.NameEnds.{NameEnds};
ghost use Rattle.vmv_tree.specs.declared.site.NamedSite.{NamedSite};
ghost use Rattle.vmv_snapshot.specs.Resolution.{Resolution, IsResolution};
ghost use Rattle.vmv_zone.specs.declared.zone.Zone.{Zone};
ghost use Rattle.vmv_zone.specs.Zone.{IsBelow};
ghost use Rattle.vmv_assumption.specs.Assumed.{Assumed};
ghost use Rattle.vmv_assumption.specs.Within.{IsBelow as IsLess};
ghost use Rattle.vmv_cert.specs.declared.row.Row.{Row};
ghost use Rattle.vmv_cert.specs.Walk.{Walk, Way, goes};
ghost use Rattle.vmv_cert.specs.Tables.{WalksRow, Accepted, IsRefused, Box, Provable, Dead};

/// Where a row's walk goes on from a state, its walk under a smaller assumption goes on from a lower one.
pub fn lower_walks_pass()
    ensures { (program : Resolution) (assumed less : Assumed) (rows : List Row) (row : Row) (z : Zone) (way : Way) → IsResolution program → IsLess less assumed → WalksRow (record { program = program; assumed = assumed; rows = rows; row = row }) (goes z) → WalksRow (record { program = program; assumed = less; rows = rows; row = row }) way → (y : Zone) × (way ≡ goes y) × IsBelow y z }
{}

/// Each walk of a row of an accepted table goes on under a smaller assumption.
pub fn accepted_tables_stay_accepted()
    ensures { (program : Resolution) (assumed less : Assumed) (rows : List Row) (row : Row) (way : Way) → IsResolution program → IsLess less assumed → Accepted program assumed rows → Contains rows row → WalksRow (record { program = program; assumed = less; rows = rows; row = row }) way → (y : Zone) × (way ≡ goes y) }
{}

/// An accepted table isn't refused under a smaller assumption.
pub fn accepted_tables_are_never_refused()
    ensures { (program : Resolution) (assumed less : Assumed) (rows : List Row) (number step : ℕ) → IsResolution program → IsLess less assumed → Accepted program assumed rows → IsRefused program less rows number step → ⊥ }
{}

/// The walk of each row ends in some way: it can't be that there is none.
pub fn each_walk_ends_some_way()
    ensures { (w : Walk) → IsResolution w.program → ¬ (¬ ((way : Way) × WalksRow w way)) }
{}

/// A table that is accepted is accepted under a smaller assumption: it can't be that it isn't.
pub fn smaller_assumptions_accept()
    ensures { (program : Resolution) (assumed less : Assumed) (rows : List Row) → IsResolution program → IsLess less assumed → Accepted program assumed rows → ¬ (¬ Accepted program less rows) }
{}

/// Where a table shows that an entry doesn't return from a box, it can't be that none does under a smaller assumption.
pub fn dead_is_kept()
    ensures { (program : Resolution) (number : ℕ) (box : Box) (ends : List NameEnds) (assumed less : Assumed) → IsResolution program → IsLess less assumed → Dead program number box ends assumed → ¬ (¬ Dead program number box ends less) }
{}

/// Where a table proves a site, it can't be that none does under a smaller assumption.
pub fn provable_is_kept()
    ensures { (program : Resolution) (number : ℕ) (ends : List NameEnds) (assumed less : Assumed) (site : NamedSite) → IsResolution program → IsLess less assumed → Provable program number ends assumed site → ¬ (¬ Provable program number ends less site) }
{}
