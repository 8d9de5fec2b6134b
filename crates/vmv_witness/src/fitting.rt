ghost use Rattle.std.specs.Prelude.{◌≡◌, ◌↔◌, ◌<◌, ℕ, Some, length, map, slice_get, IsTrue, IfSome, IfNone};
ghost use Rattle.vmv_tree.specs.Tree.{Item};
ghost use Rattle.vmv_tree.specs.Safe.{FitParams};
ghost use Rattle.vmv_snapshot.specs.Resolution.{tree_of, procs_of};
ghost use Rattle.vmv_witness.specs.Fit.{HasEntry, IsSiteOf, IsSiteIn, HasSite, Fits};

use crate::witness::{ParamValue, Witness};
use vmv_snapshot::{ProcId, Snapshot};
use vmv_tree::{Name, NamedSite, Param};

/// Why a witness isn't one for a program. The first that holds is told.
#[derive(Clone, Copy, PartialEq, Eq, Debug, Drop)]
pub enum Unfit {
    /// No entry has the name.
    NoEntry,
    /// The entry has another number of parameters.
    ParamCount,
    /// A word is outside the range of its parameter.
    ParamRange,
    /// No procedure that the entry reaches, itself included, has the site.
    NoSite,
}

fn is_same(name: &Name, other: &Name) -> bool
    ensures { IsTrue result ↔ (name.now ≡ other.now) }
{
    name.bytes() == other.bytes()
}

/// Whether a procedure is an entry of this name.
fn is_entry_named(snapshot: &Snapshot, proc: ProcId, name: &Name) -> bool
    requires { proc.0 < length (procs_of snapshot.now) }
    ensures { IsTrue result ↔ HasEntry (tree_of snapshot.now) name.now proc.0 }
{
    snapshot.is_entry(proc) && is_same(&snapshot.proc_name(proc), name)
}

/// The entry of this name.
fn entry_named(snapshot: &Snapshot, name: &Name) -> Option<ProcId>
    ensures some { IfSome result (λ proc. HasEntry (tree_of snapshot.now) name.now proc.0) }
    ensures none { IfNone result ((n : ℕ) → HasEntry (tree_of snapshot.now) name.now n → ⊥) }
{
    for n in 0..snapshot.proc_count() {
        if is_entry_named(snapshot, ProcId(n), name) {
            return Some(ProcId(n));
        }
    }
    None
}

/// Whether there is one value for each parameter, in its range.
fn are_in_range(params: &[Param], values: &[ParamValue]) -> bool
    requires { length values.now ≡ length params.now }
    ensures { IsTrue result ↔ FitParams params.now (map (λ p. p.value) values.now) }
{
    for (i, param) in params.iter().enumerate() {
        let value = values[i].value;
        if value < param.lo || param.hi < value {
            return false;
        }
    }
    true
}

/// Whether a procedure has the site.
fn is_site_of(snapshot: &Snapshot, proc: ProcId, site: &NamedSite) -> bool
    requires { proc.0 < length (procs_of snapshot.now) }
    ensures { (item : Item) → slice_get (procs_of snapshot.now) proc.0 ≡ Some item → IsTrue result ↔ IsSiteOf item site.now }
{
    let count = snapshot.site_count(proc);
    if !is_same(&snapshot.proc_name(proc), &site.proc) {
        return false;
    }
    1 <= site.index && site.index <= count
}

/// Whether an entry reaches this procedure, which has the site.
fn is_site_in(snapshot: &Snapshot, entry: ProcId, proc: ProcId, site: &NamedSite) -> bool
    requires entry { entry.0 < length (procs_of snapshot.now) }
    requires proc { proc.0 < length (procs_of snapshot.now) }
    ensures { IsTrue result ↔ IsSiteIn (tree_of snapshot.now) entry.0 site.now proc.0 }
{
    snapshot.reaches(entry, proc) && is_site_of(snapshot, proc, site)
}

/// Whether an entry reaches a procedure that has the site.
fn has_site(snapshot: &Snapshot, entry: ProcId, site: &NamedSite) -> bool
    requires { entry.0 < length (procs_of snapshot.now) }
    ensures { IsTrue result ↔ HasSite (tree_of snapshot.now) entry.0 site.now }
{
    for n in 0..snapshot.proc_count() {
        if is_site_in(snapshot, entry, ProcId(n), site) {
            return true;
        }
    }
    false
}

/// The entry of a program that a witness is one for, where it is. The names of the parameters aren't compared.
pub fn fit(snapshot: &Snapshot, witness: &Witness) -> Result<ProcId, Unfit>
    ensures { Fits (tree_of snapshot.now) witness.now result }
{
    let Some(entry) = entry_named(snapshot, &witness.entry) else {
        return Err(Unfit::NoEntry);
    };
    let params = snapshot.params(entry).as_slice();
    let values = witness.params.as_slice();
    if values.len() != params.len() {
        return Err(Unfit::ParamCount);
    }
    if !are_in_range(params, values) {
        return Err(Unfit::ParamRange);
    }
    if !has_site(snapshot, entry, &witness.site) {
        return Err(Unfit::NoSite);
    }
    Ok(entry)
}
