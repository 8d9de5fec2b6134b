ghost use Rattle.std.specs.Prelude.{◌≡◌, ◌↔◌, ◌≤ℤ◌, ℕ, ℤ, List, IsTrue, IsSome, IfSome, length};
ghost use Rattle.std.specs.List.{Contains};
ghost use Rattle.vmv_tree.specs.declared.tree.Param.{Param as Taken};
ghost use Rattle.vmv_snapshot.specs.Resolution.{IsResolution};
ghost use Rattle.vmv_cert.specs.Tables.{IsBoxIn};
ghost use Rattle.vmv_proof_check.specs.Parts.{IsNamedEntry, IsHeaded};

use vmv_proof::Exclusion;
use vmv_snapshot::{ProcId, Snapshot};
use vmv_tree::{Name, Param};

/// The entry of this name; `None` where no entry has it.
pub(crate) fn find_entry(snapshot: &Snapshot, name: &Name) -> Option<ProcId>
    requires { IsResolution snapshot.now }
    ensures found { IsSome result ↔ ((number : ℕ) × (params : List Taken) × IsNamedEntry snapshot.now name.now number params) }
    ensures entry { IfSome result (λ proc. (params : List Taken) × IsNamedEntry snapshot.now name.now proc.0 params) }
{
    let proc = snapshot.find_proc(name)?;
    if snapshot.is_entry(proc) {
        Some(proc)
    } else {
        None
    }
}

/// Whether the two are one name.
pub(crate) fn is_name(one: &Name, other: &Name) -> bool
    ensures { IsTrue result ↔ (one.now ≡ other.now) }
{
    one.bytes() == other.bytes()
}

/// Whether the range isn't empty and lies in that of the parameter.
fn is_range_in(param: &Param, range: (i64, i64)) -> bool
    ensures { IsTrue result ↔ ((param.now.lo ≤ℤ range.0) × (range.0 ≤ℤ range.1) × (range.1 ≤ℤ param.now.hi)) }
{
    param.lo <= range.0 && range.0 <= range.1 && range.1 <= param.hi
}

/// Whether there is a range for each parameter, and none is empty and each lies in that of its parameter.
fn is_box_in(params: &[Param], ranges: &[(i64, i64)]) -> bool
    ensures { IsTrue result ↔ IsBoxIn params.now ranges.now }
{
    if params.len() != ranges.len() {
        return false;
    }
    for i in 0..params.len() {
        let param = &params[i];
        let range = ranges[i];
        if !is_range_in(param, range) {
            return false;
        }
    }
    true
}

/// Whether the name is among these.
fn is_name_among(names: &[Name], name: &Name) -> bool
    ensures { IsTrue result ↔ Contains names.now name.now }
{
    for other in names {
        if is_name(other, name) {
            return true;
        }
    }
    false
}

/// Whether the head of an exclusion is right behind these others.
pub(crate) fn is_headed(base: &Snapshot, before: &[Exclusion], x: &Exclusion) -> bool
    requires { IsResolution base.now }
    ensures { IsTrue result ↔ IsHeaded base.now before.now x.now }
{
    let Some(entry) = find_entry(base, &x.entry) else {
        return false;
    };
    if !is_name_among(base.outsides(), &x.name) {
        return false;
    }
    if !is_box_in(base.params(entry).as_slice(), x.within.ranges()) {
        return false;
    }
    x.under as usize <= before.len()
}
