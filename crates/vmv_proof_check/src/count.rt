ghost use Rattle.std.specs.Prelude.{◌≡◌, ◌<◌, ◌+◌, ◌-◌, ◌^◌, Some, true, map, length, slice_get};
ghost use Rattle.vmv_snapshot.specs.Procs.{is_entry};
ghost use Rattle.vmv_snapshot.specs.Reaches.{Reaches};
ghost use Rattle.vmv_snapshot.specs.Resolution.{tree_of, procs_of, IsResolution};
ghost use Rattle.vmv_cert.specs.Places.{Place};
ghost use Rattle.vmv_proof_check.specs.Counts.{Standing};
ghost use Rattle.vmv_proof_check.specs.Work.{at, AreListsFor, IsListedAs, IsOneMore, IsCountedBefore};

use crate::claims::Claims;
use crate::sites::is_among;
use crate::tally::{Checking, Lists};
use vmv_cert::NamedSite;
use vmv_snapshot::ProcId;

/// Counts a row: clean where the plain table doesn't list its site, else hidden where the given one doesn't, else left.
fn count_row(claims: &mut Claims, lists: &Lists, site: &NamedSite)
    requires { claims.old.clean + claims.old.hidden + claims.old.left < 2 ^ 32 - 1 }
    ensures { (standing : Standing) × IsListedAs lists.now site.now standing × IsOneMore claims.old standing claims.new }
{
    if !is_among(lists.plain.as_slice(), site) {
        claims.clean += 1;
        return;
    }
    if !is_among(lists.given.as_slice(), site) {
        claims.hidden += 1;
        return;
    }
    claims.left += 1;
}

/// Counts the rows of the sites of a procedure that the entry reaches.
fn count_sites(
    claims: &mut Claims,
    checking: &Checking<'_>,
    lists: &Lists,
    entry: ProcId,
    proc: ProcId,
)
    requires resolution { IsResolution checking.now.revision.now }
    requires entry { slice_get (map is_entry (procs_of checking.now.revision.now)) entry.0 ≡ Some true }
    requires proc { proc.0 < length (procs_of checking.now.revision.now) }
    requires reached { Reaches (tree_of checking.now.revision.now) entry.0 proc.0 }
    requires lists { AreListsFor checking.now.revision.now checking.now.shown.now entry.0 lists.now }
    requires before { IsCountedBefore checking.now.revision.now checking.now.shown.now (at entry.0 proc.0 1) claims.old }
    ensures { IsCountedBefore checking.now.revision.now checking.now.shown.now (at entry.0 (proc.0 + 1) 1) claims.new }
{
    let name = checking.revision.proc_name(proc);
    for done in 0..checking.revision.site_count(proc) {
        let index = done + 1;
        count_row(claims, lists, &NamedSite { proc: name, index });
    }
}

/// Counts the rows of a procedure, where the entry reaches it.
fn count_proc(
    claims: &mut Claims,
    checking: &Checking<'_>,
    lists: &Lists,
    entry: ProcId,
    number: u16,
)
    requires resolution { IsResolution checking.now.revision.now }
    requires entry { slice_get (map is_entry (procs_of checking.now.revision.now)) entry.0 ≡ Some true }
    requires number { number < length (procs_of checking.now.revision.now) }
    requires lists { AreListsFor checking.now.revision.now checking.now.shown.now entry.0 lists.now }
    requires before { IsCountedBefore checking.now.revision.now checking.now.shown.now (at entry.0 number 1) claims.old }
    ensures { IsCountedBefore checking.now.revision.now checking.now.shown.now (at entry.0 (number + 1) 1) claims.new }
{
    let proc = ProcId(number);
    if checking.revision.reaches(entry, proc) {
        count_sites(claims, checking, lists, entry, proc);
    }
}

/// Counts the rows of an entry.
pub(crate) fn count_entry(
    claims: &mut Claims,
    checking: &Checking<'_>,
    lists: &Lists,
    entry: ProcId,
)
    requires resolution { IsResolution checking.now.revision.now }
    requires entry { slice_get (map is_entry (procs_of checking.now.revision.now)) entry.0 ≡ Some true }
    requires lists { AreListsFor checking.now.revision.now checking.now.shown.now entry.0 lists.now }
    requires before { IsCountedBefore checking.now.revision.now checking.now.shown.now (at entry.0 0 1) claims.old }
    ensures { IsCountedBefore checking.now.revision.now checking.now.shown.now (at (entry.0 + 1) 0 1) claims.new }
{
    for number in 0..checking.revision.proc_count() {
        count_proc(claims, checking, lists, entry, number);
    }
}
