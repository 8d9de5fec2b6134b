ghost use Rattle.std.specs.Prelude.{◌≡◌, ◌<◌, [], ◌∷◌, true, Some, length, map, slice_get, IfOk, OnOk};
ghost use Rattle.std.specs.List.{list_any, filter_map, AllZip};
ghost use Rattle.vmv_snapshot.specs.View.{stmt_of};
ghost use Rattle.vmv_snapshot.specs.Procs.{is_entry};
ghost use Rattle.vmv_snapshot.specs.Resolution.{procs_of};
ghost use Rattle.vmv_back.specs.Kept.{keep, keep_all};
ghost use Rattle.vmv_demands.specs.declared.lead.Lead.{Lead as Led};
ghost use Rattle.vmv_demands.specs.Back.{results};
ghost use Rattle.vmv_demands.specs.Leads.{led_on, leads_in, insides, asked};
ghost use Rattle.vmv_demands.specs.Sources.{StandFor, AreSummaries};
ghost use Rattle.vmv_demands.specs.Demands.{same_condition, same_found, first_wanted, IsCondOf, IsDemand, AreDemands};

use crate::demand::{Demand, Demands};
use crate::lead::{Found, SiteLead};
use crate::leads::{asked, leads_in, summaries};
use crate::slots::Sources;
use crate::source::Source;
use crate::sources::{lead_before, step};
use crate::summary::Summary;
use crate::want::Condition;
use sqlite_items::Items;
use std::alloc::{AllocError, Global};
use vmv_cond::Cond;
use vmv_snapshot::{CodeStmt, ProcId, Snapshot};

fn same_condition(a: Condition, b: Condition) -> bool
    ensures { result ≡ same_condition a b }
{
    match a {
        Condition::Range { lo, hi } => match b {
            Condition::Range { lo: low, hi: high } => lo == low && hi == high,
            Condition::Nonzero => false,
        },
        Condition::Nonzero => match b {
            Condition::Range { .. } => false,
            Condition::Nonzero => true,
        },
    }
}

fn same_found(a: &Found, b: &Found) -> bool
    ensures { result ≡ same_found a.now b.now }
{
    a.name.bytes() == b.name.bytes() && same_condition(a.cond, b.cond)
}

fn is_there(kept: &[Found], found: &Found) -> bool
    ensures { result ≡ list_any (λ f. same_found f found.now) kept.now }
{
    kept.iter().any(|f| same_found(f, found))
}

/// Keeps what is wanted, unless it is there or 32 are.
fn keep(kept: &mut Items<Found>, found: Found) -> Result<(), AllocError>
    ensures { OnOk result (kept.new ≡ keep 32 same_found kept.old found) }
{
    if kept.len() >= 32 || is_there(kept.as_slice(), &found) {
        return Ok(());
    }
    kept.push(found)?;
    Ok(())
}

/// Keeps what has come to the answer of an outside function.
fn keep_asked(kept: &mut Items<Found>, led: &SiteLead) -> Result<(), AllocError>
    ensures { OnOk result (kept.new ≡ keep_all 32 same_found kept.old (filter_map asked (led.now ∷ []))) }
{
    match asked(led) {
        Some(found) => keep(kept, found),
        None => Ok(()),
    }
}

/// Keeps what stands behind statements and comes to answers before them.
fn keep_before(
    kept: &mut Items<Found>,
    sources: &[Source],
    behind: &[SiteLead],
) -> Result<(), AllocError>
    ensures { OnOk result ((before : Led → Led) → StandFor before sources.now → kept.new ≡ keep_all 32 same_found kept.old (filter_map asked (led_on before behind.now))) }
{
    for led in behind {
        let lead = lead_before(sources, led.lead);
        let site = led.site;
        keep_asked(kept, &SiteLead { site, lead })?;
    }
    Ok(())
}

/// Keeps what a statement behind others wants of answers; nothing more where 32 are kept.
fn keep_wanted(
    kept: &mut Items<Found>,
    alloc: Global,
    snapshot: &Snapshot,
    rows: &[Summary],
    sources: &[Source],
    proc: ProcId,
    stmt: &CodeStmt,
) -> Result<(), AllocError>
    requires { AreSummaries snapshot.now.codes proc.0 rows.now }
    ensures { OnOk result ((before : Led → Led) → StandFor before sources.now → kept.new ≡ keep_all 32 same_found kept.old (filter_map asked (led_on before (leads_in (results snapshot.now.codes proc.0) (insides snapshot.now.codes proc.0) proc (stmt_of stmt.now))))) }
{
    if kept.len() >= 32 {
        return Ok(());
    }
    let behind = leads_in(alloc, snapshot, rows, proc, stmt)?;
    keep_before(kept, sources, behind.as_slice())
}

/// What the sites of a procedure and of its calls want of answers: the first 32 different ones. `rows` has the procedures
/// before it.
pub(crate) fn first_wanted(
    alloc: Global,
    snapshot: &Snapshot,
    rows: &[Summary],
    proc: ProcId,
) -> Result<Items<Found>, AllocError>
    requires proc { proc.0 < length (procs_of snapshot.now) }
    requires rows { AreSummaries snapshot.now.codes proc.0 rows.now }
    ensures { IfOk result (λ found. found ≡ first_wanted snapshot.now proc.0) }
{
    let block = snapshot.code(proc).block.as_slice();
    let mut sources = Sources::new(alloc);
    let mut kept = Items::new(alloc);
    for i in 0..block.len() {
        keep_wanted(
            &mut kept,
            alloc,
            snapshot,
            rows,
            sources.as_slice(),
            proc,
            &block[i],
        )?;
        step(&mut sources, snapshot, rows, proc, &block[i])?;
    }
    Ok(kept)
}

fn cond_of(cond: Condition) -> Cond
    ensures { IsCondOf cond result }
{
    match cond {
        Condition::Range { lo, hi } => Cond::of(lo, hi, false),
        Condition::Nonzero => Cond::of(i64::MIN, i64::MAX, true),
    }
}

fn demand_of(found: &Found) -> Demand
    ensures { IsDemand found.now result }
{
    Demand {
        name: found.name,
        cond: cond_of(found.cond),
        site: found.site,
    }
}

fn all_demands(alloc: Global, wanted: &[Found]) -> Result<Demands, AllocError>
    ensures { IfOk result (AllZip IsDemand wanted.now) }
{
    let mut demands = Demands::new(alloc);
    for found in wanted {
        demands.push(demand_of(found))?;
    }
    Ok(demands)
}

/// The demands of an entry: of each of its sites, and of those of helpers in place of their calls, in text order, the
/// condition that it needs of one variable, where going back leads it to the answer of an outside function; at most 32
/// different ones, each with its first site. It fails for want of memory alone.
pub fn demands(alloc: Global, snapshot: &Snapshot, entry: ProcId) -> Result<Demands, AllocError>
    requires { slice_get (map is_entry (procs_of snapshot.now)) entry.0 ≡ Some true }
    ensures { IfOk result (AreDemands snapshot.now entry.0) }
{
    let rows = summaries(alloc, snapshot, entry.0)?;
    let wanted = first_wanted(alloc, snapshot, rows.as_slice(), entry)?;
    all_demands(alloc, wanted.as_slice())
}
