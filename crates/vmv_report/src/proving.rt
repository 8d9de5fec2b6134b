ghost use Rattle.std.specs.Prelude.{◌≡◌, ◌≢◌, ◌↔◌, ◌<◌, [], ◌∷◌, List, Some, true, length, map, slice_get, IfOk, IfSome, IfNone, IsTrue};
ghost use Rattle.std.specs.List.{Contains};
ghost use Rattle.vmv_snapshot.specs.Procs.{is_entry};
ghost use Rattle.vmv_snapshot.specs.Resolution.{procs_of};
ghost use Rattle.vmv_assumption.specs.Whole.{whole as every_word};
ghost use Rattle.vmv_assumption.specs.Assumed.{cond_of};
ghost use Rattle.vmv_cert.specs.declared.row.Row.{Row as Listed};
ghost use Rattle.vmv_proof.specs.declared.proof.Shown.{Shown as Tables};
ghost use Rattle.vmv_proving.specs.Shown.{AreShown};
ghost use Rattle.vmv_report.specs.Work.{review_of, IsReady, AreUnproved, AreFoundBy, AreSitesFor, AreSitesAt};

use sqlite_items::Items;
use std::alloc::{AllocError, Global};
use vmv_assumption::Assumption;
use vmv_cert::{Row, Sites};
use vmv_crew::Job;
use vmv_enough::{Found, witnesses_in_turn};
use vmv_forward::{Thresholds, least_tables_decide_proof, least_tables_have_rows, unproved_sites};
use vmv_proof::Shown;
use vmv_snapshot::{ProcId, Snapshot};
use vmv_tree::{Ends, Name, NamedSite};

/// What is lent to those who judge the entries of a revision: one answer an entry, which depends on this alone.
#[derive(Drop)]
pub(crate) struct Judging<'a> {
    /// The revision.
    pub(crate) revision: &'a Snapshot,
    /// Its entries, in text order.
    pub(crate) entries: &'a [ProcId],
    /// The ends of the base's outside names.
    pub(crate) ends: &'a Ends,
    /// The whole condition for each name.
    pub(crate) whole: &'a Assumption,
    /// What is necessary for the base.
    pub(crate) needed: &'a Assumption,
    /// What suffices for the base, where there is something.
    pub(crate) enough: &'a Option<Assumption>,
    /// The tables of the revision's entries, where they have been made.
    pub(crate) shown: Option<&'a [Shown]>,
}

/// The sites that an entry may fail at, as far as tables tell, and the runs that fail.
#[derive(Drop)]
pub(crate) struct EntrySites {
    /// Those that aren't always provable.
    pub(crate) always: Sites,
    /// Those among them that aren't relatively provable.
    pub(crate) relative: Sites,
    /// The runs that the probes find, where there are such sites.
    pub(crate) found: Found,
}

/// The runs that the probes of an entry find.
fn found_by(alloc: Global, judging: &Judging<'_>, entry: ProcId) -> Result<Found, AllocError>
    requires ready { IsReady judging.now }
    requires entry { slice_get (map is_entry (procs_of judging.now.revision.now)) entry.0 ≡ Some true }
    ensures { IfOk result (AreFoundBy judging.now.revision.now judging.now.enough.now entry.0) }
{
    let Some(enough) = judging.enough else {
        return Ok(Items::new(alloc));
    };
    let found = witnesses_in_turn(alloc, judging.revision, entry, enough)?;
    Ok(found)
}

/// The sites that an entry may fail at, with the runs that the probes find, where some site isn't relatively provable.
fn with_runs(
    alloc: Global,
    judging: &Judging<'_>,
    entry: ProcId,
    always: Sites,
    relative: Sites,
) -> Result<EntrySites, AllocError>
    requires ready { IsReady judging.now }
    requires entry { slice_get (map is_entry (procs_of judging.now.revision.now)) entry.0 ≡ Some true }
    requires some { always ≢ [] }
    requires always { AreUnproved judging.now.revision.now entry.0 judging.now.ends.now (λ name. every_word) always }
    requires relative { AreUnproved judging.now.revision.now entry.0 judging.now.ends.now (cond_of judging.now.needed.now) relative }
    ensures { IfOk result (AreSitesFor (review_of judging.now) entry.0) }
{
    if relative.is_empty() {
        return Ok(EntrySites {
            always,
            relative,
            found: Items::new(alloc),
        });
    }
    let found = found_by(alloc, judging, entry)?;
    Ok(EntrySites {
        always,
        relative,
        found,
    })
}

/// The sites that an entry may fail at, by tables that are made now. Where each is always provable, no table is made for
/// what is necessary.
fn made_sites(alloc: Global, judging: &Judging<'_>, entry: ProcId) -> Result<EntrySites, AllocError>
    requires ready { IsReady judging.now }
    requires entry { slice_get (map is_entry (procs_of judging.now.revision.now)) entry.0 ≡ Some true }
    ensures { IfOk result (AreSitesFor (review_of judging.now) entry.0) }
{
    let thresholds = Thresholds::of(alloc, judging.revision, entry, judging.ends)?;
    let always = unproved_sites(alloc, judging.revision, entry, judging.whole, &thresholds)?;
    if always.is_empty() {
        return Ok(EntrySites {
            always,
            relative: Items::new(alloc),
            found: Items::new(alloc),
        });
    }
    let relative = unproved_sites(alloc, judging.revision, entry, judging.needed, &thresholds)?;
    with_runs(alloc, judging, entry, always, relative)
}

/// Whether the two are one name.
fn is_named(one: &Name, other: &Name) -> bool
    ensures { IsTrue result ↔ (one.now ≡ other.now) }
{
    one.bytes() == other.bytes()
}

/// The tables of the entry of this name; there are at most as many as a program has entries.
fn shown_for<'a>(shown: &'a [Shown], name: &Name) -> Option<&'a Shown>
    ensures some { IfSome result (λ own. Contains shown.now own.now × (own.now.entry ≡ name.now)) }
    ensures none { IfNone result ((own : Tables) → Contains shown.now own → own.entry ≢ name.now) }
{
    for own in shown {
        if is_named(&own.entry, name) {
            return Some(own);
        }
    }
    None
}

/// The sites that the first of these rows lists.
fn first_sites(alloc: Global, rows: &[Row]) -> Result<Sites, AllocError>
    ensures { IfOk result (λ sites. (first : Listed) (rest : List Listed) → rows.now ≡ first ∷ rest → sites ≡ first.unproved) }
{
    match rows {
        [] => Ok(Items::new(alloc)),
        [first, ..] => Items::from_slice(alloc, first.unproved.as_slice()),
    }
}

/// The sites that an entry may fail at, by tables that have been made.
fn shown_sites(
    alloc: Global,
    judging: &Judging<'_>,
    entry: ProcId,
    shown: &[Shown],
) -> Result<EntrySites, AllocError>
    requires ready { IsReady judging.now }
    requires entry { slice_get (map is_entry (procs_of judging.now.revision.now)) entry.0 ≡ Some true }
    requires shown { AreShown judging.now.revision.now judging.now.ends.now (cond_of judging.now.needed.now) shown.now }
    ensures { IfOk result (AreSitesFor (review_of judging.now) entry.0) }
{
    least_tables_have_rows();
    least_tables_decide_proof();
    let name = judging.revision.proc_name(entry);
    let Some(own) = shown_for(shown, &name) else {
        unreachable!()
    };
    let always = first_sites(alloc, own.plain.rows.as_slice())?;
    if always.is_empty() {
        return Ok(EntrySites {
            always,
            relative: Items::new(alloc),
            found: Items::new(alloc),
        });
    }
    let relative = first_sites(alloc, own.given.rows.as_slice())?;
    with_runs(alloc, judging, entry, always, relative)
}

/// The sites that an entry may fail at. Where each is provable in one way or the other, there are no probes.
pub(crate) fn entry_sites(
    alloc: Global,
    judging: &Judging<'_>,
    entry: ProcId,
) -> Result<EntrySites, AllocError>
    requires ready { IsReady judging.now }
    requires entry { slice_get (map is_entry (procs_of judging.now.revision.now)) entry.0 ≡ Some true }
    ensures { IfOk result (AreSitesFor (review_of judging.now) entry.0) }
{
    match judging.shown {
        Some(shown) => shown_sites(alloc, judging, entry, shown),
        None => made_sites(alloc, judging, entry),
    }
}

impl Judging<'_> {
    /// The sites that the entry at a place may fail at.
    fn judge(&self, alloc: Global, place: usize) -> Result<EntrySites, AllocError>
        requires ready { IsReady self.now }
        requires place { place < length self.now.entries.now }
        ensures { IfOk result (AreSitesAt (review_of self.now) self.now.entries.now place) }
    {
        let entries = self.entries;
        let entry = entries[place];
        let sites = entry_sites(alloc, self, entry)?;
        Ok(sites)
    }
}

impl Job for Judging<'_> {
    type Out = EntrySites;

    ghost can_run = { λ judging place. IsReady judging × (place < length judging.entries.now) };

    ghost allows = { λ judging place sites. AreSitesAt (review_of judging) judging.entries.now place sites };

    fn run(&self, alloc: Global, place: usize) -> Result<EntrySites, AllocError> {
        self.judge(alloc, place)
    }
}

/// Whether the two are one site.
pub(crate) fn is_same(one: &NamedSite, other: &NamedSite) -> bool
    ensures { IsTrue result ↔ (one.now ≡ other.now) }
{
    one.index == other.index && one.proc.bytes() == other.proc.bytes()
}
