ghost use Rattle.std.specs.Prelude.{◌≡◌, ◌↔◌, ◌∷◌, ℕ, List};
ghost use Rattle.std.specs.List.{Contains};
ghost use Rattle.vmv_tree.specs.declared.ends.NameEnds.{NameEnds};
ghost use Rattle.vmv_tree.specs.declared.site.NamedSite.{NamedSite};
ghost use Rattle.vmv_tree.specs.declared.tree.Param.{Param};
ghost use Rattle.vmv_snapshot.specs.Resolution.{Resolution, IsResolution};
ghost use Rattle.vmv_assumption.specs.Assumed.{Assumed};
ghost use Rattle.vmv_cert.specs.declared.row.Row.{Row};
ghost use Rattle.vmv_cert.specs.declared.row.Reach.TheVariants.{Bottom};
ghost use Rattle.vmv_cert.specs.Tables.{Box, IsRowAbove, IsEntry, IsBoxIn, ranges_of, Dead, Provable};
ghost use Rattle.vmv_forward.specs.Least.{IsLeastTable, IsFirst};

/// An entry doesn't return from a box where the first row of the least table says so.
pub fn least_tables_decide_death()
    ensures { (program : Resolution) (number : ℕ) (params : List Param) (box : Box) (ends : List NameEnds) (assumed : Assumed) (first : Row) (rest : List Row) → IsResolution program → IsEntry program number params → IsBoxIn params box → IsLeastTable program number box ends assumed (first ∷ rest) → Dead program number box ends assumed ↔ (first.result ≡ Bottom) }
{}

/// A site is provable where the first row of the least table of the entry's ranges doesn't list it.
pub fn least_tables_decide_proof()
    ensures { (program : Resolution) (number : ℕ) (params : List Param) (ends : List NameEnds) (assumed : Assumed) (first : Row) (rest : List Row) (site : NamedSite) → IsResolution program → IsEntry program number params → IsLeastTable program number (ranges_of params) ends assumed (first ∷ rest) → Provable program number ends assumed site ↔ (Contains first.unproved site → ⊥) }
{}

/// A least table has a first row.
pub fn least_tables_have_rows()
    ensures { (program : Resolution) (number : ℕ) (box : Box) (ends : List NameEnds) (assumed : Assumed) (rows : List Row) → IsLeastTable program number box ends assumed rows → (first : Row) × (rest : List Row) × (rows ≡ first ∷ rest) × IsFirst program number first }
{}

/// The first row of a least table is one of the entry with an input above the box.
pub fn least_tables_begin_above_their_boxes()
    ensures { (program : Resolution) (number : ℕ) (box : Box) (ends : List NameEnds) (assumed : Assumed) (first : Row) (rest : List Row) → IsLeastTable program number box ends assumed (first ∷ rest) → IsRowAbove program number box first }
{}

/// Two tables that are least for one entry, box, ends and assumption are equal.
pub fn least_tables_are_unique()
    ensures { (program : Resolution) (number : ℕ) (box : Box) (ends : List NameEnds) (assumed : Assumed) (rows other : List Row) → IsResolution program → IsLeastTable program number box ends assumed rows → IsLeastTable program number box ends assumed other → rows ≡ other }
{}
