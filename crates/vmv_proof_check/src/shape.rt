ghost use Rattle.std.specs.Prelude.{◌≡◌, ◌↔◌, ◌<◌, ◌++◌, ◌∷◌, [], Some, IsTrue, IfOk, OnOk, filter, length, map, slice_get};
ghost use Rattle.vmv_tree.specs.Tree.{Item};
ghost use Rattle.vmv_tree.specs.Run.{name_of};
ghost use Rattle.vmv_snapshot.specs.Procs.{is_entry};
ghost use Rattle.vmv_snapshot.specs.Resolution.{procs_of};
ghost use Rattle.vmv_proof_check.specs.Parts.{IsShaped};

use crate::entry::is_name;
use std::alloc::{AllocError, Global};
use vmv_proof::Shown;
use vmv_snapshot::{ProcId, Snapshot};
use vmv_tree::Name;

/// Adds the name of a procedure that is an entry.
fn push_entry(names: &mut Vec<Name>, snapshot: &Snapshot, number: u16) -> Result<(), AllocError>
    requires { number < length (procs_of snapshot.now) }
    ensures { OnOk result ((item : Item) → slice_get (procs_of snapshot.now) number ≡ Some item → names.new.items ≡ names.old.items ++ map name_of (filter is_entry (item ∷ []))) }
{
    let proc = ProcId(number);
    if !snapshot.is_entry(proc) {
        return Ok(());
    }
    let name = snapshot.proc_name(proc);
    names.push(name)?;
    Ok(())
}

/// The names of the entries, in order.
fn entry_names(alloc: Global, snapshot: &Snapshot) -> Result<Vec<Name>, AllocError>
    ensures { IfOk result (λ names. names.items ≡ map name_of (filter is_entry (procs_of snapshot.now))) }
{
    let mut names = Vec::new(alloc);
    for number in 0..snapshot.proc_count() {
        push_entry(&mut names, snapshot, number)?;
    }
    Ok(names)
}

/// Whether what is shown has these names, in order.
fn has_names(shown: &[Shown], names: &[Name]) -> bool
    ensures { IsTrue result ↔ (map (λ s. s.entry) shown.now ≡ names.now) }
{
    if shown.len() != names.len() {
        return false;
    }
    for i in 0..names.len() {
        let s = &shown[i];
        let name = &names[i];
        if !is_name(&s.entry, name) {
            return false;
        }
    }
    true
}

/// Whether what is shown names the entries of the program, in order.
pub(crate) fn is_shaped(
    alloc: Global,
    snapshot: &Snapshot,
    shown: &[Shown],
) -> Result<bool, AllocError>
    ensures { IfOk result (λ shaped. IsTrue shaped ↔ IsShaped snapshot.now shown.now) }
{
    let names = entry_names(alloc, snapshot)?;
    Ok(has_names(shown, names.as_slice()))
}
