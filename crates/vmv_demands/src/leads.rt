ghost use Rattle.std.specs.Prelude.{◌≡◌, ◌<◌, ◌≤◌, [], ◌++◌, length, IfOk, OnOk};
ghost use Rattle.vmv_snapshot.specs.View.{stmt_of, block_of};
ghost use Rattle.vmv_snapshot.specs.Resolution.{procs_of};
ghost use Rattle.vmv_demands.specs.declared.lead.Lead.{Lead as Led};
ghost use Rattle.vmv_demands.specs.Back.{out_of_call, over_all, results};
ghost use Rattle.vmv_demands.specs.Leads.{lead_of, led_on, simple_leads, leads_in, leads_in_all, insides, asked};
ghost use Rattle.vmv_demands.specs.Sources.{StandFor, IsSummary, AreSummaries};

use crate::lead::{Found, Lead, SiteLead};
use crate::lost::lose;
use crate::needs::{arith_needs, bound_needs, test_needs};
use crate::slots::Sources;
use crate::source::Source;
use crate::sources::{lead_before, operand, out_of_call, step};
use crate::summary::{Leads, Summary};
use sqlite_items::Items;
use std::alloc::{AllocError, Global};
use vmv_snapshot::{CodeOperand, CodeStmt, ProcId, Simple, SiteId, Snapshot};

/// Adds a site, unless its condition leads nowhere.
fn push(leads: &mut Leads, site: SiteId, lead: Lead) -> Result<(), AllocError>
    ensures { OnOk result (leads.new ≡ leads.old ++ lead_of site lead) }
{
    if let Lead::Nowhere = lead {
        return Ok(());
    }
    leads.push(SiteLead { site, lead })?;
    Ok(())
}

/// Adds the condition of a simple statement, which stands in this procedure.
fn push_simple(leads: &mut Leads, proc: ProcId, simple: &Simple) -> Result<(), AllocError>
    ensures { OnOk result (leads.new ≡ leads.old ++ simple_leads proc simple.now) }
{
    match simple {
        Simple::Arith {
            op,
            left,
            right,
            site,
            ..
        } => push(
            leads,
            SiteId { proc, index: *site },
            arith_needs(*op, *left, *right),
        ),
        Simple::Assert { test, site } => {
            push(leads, SiteId { proc, index: *site }, test_needs(*test))
        }
        Simple::Set { .. } | Simple::Ask { .. } => Ok(()),
    }
}

/// Adds what stands at the start of a helper, led to before a call of it.
fn push_out_of_call(
    leads: &mut Leads,
    args: &[CodeOperand],
    inside: &[SiteLead],
) -> Result<(), AllocError>
    ensures { OnOk result (leads.new ≡ leads.old ++ led_on (out_of_call args.now) inside.now) }
{
    for led in inside {
        push(leads, led.site, out_of_call(args, led.lead))?;
    }
    Ok(())
}

/// Adds what stands behind statements, led to before them.
fn push_before(leads: &mut Leads, sources: &[Source], behind: &[SiteLead]) -> Result<(), AllocError>
    ensures { OnOk result ((before : Led → Led) → StandFor before sources.now → leads.new ≡ leads.old ++ led_on before behind.now) }
{
    for led in behind {
        let lead = lead_before(sources, led.lead);
        push(leads, led.site, lead)?;
    }
    Ok(())
}

/// The conditions of the sites in a statement of the procedure of this number, led back to before it. `rows` has the
/// procedures before it.
#[cycle(leads)]
pub(crate) fn leads_in(
    alloc: Global,
    snapshot: &Snapshot,
    rows: &[Summary],
    proc: ProcId,
    stmt: &CodeStmt,
) -> Result<Leads, AllocError>
    requires { AreSummaries snapshot.now.codes proc.0 rows.now }
    ensures { IfOk result (λ leads. leads ≡ leads_in (results snapshot.now.codes proc.0) (insides snapshot.now.codes proc.0) proc (stmt_of stmt.now)) }
{
    let mut leads = Leads::new(alloc);
    match stmt {
        CodeStmt::Plain(simple) => {
            push_simple(&mut leads, proc, simple)?;
            Ok(leads)
        }
        CodeStmt::Help { callee, args, .. } => {
            // Only procedures before this one are called.
            if callee.0 >= proc.0 {
                return Ok(leads);
            }
            let inside = rows[callee.0 as usize].leads.as_slice();
            push_out_of_call(&mut leads, args.as_slice(), inside)?;
            Ok(leads)
        }
        CodeStmt::If { first, second, .. } => {
            leads.append(leads_in_all(alloc, snapshot, rows, proc, first.as_slice())?)?;
            leads.append(leads_in_all(alloc, snapshot, rows, proc, second.as_slice())?)?;
            Ok(leads)
        }
        CodeStmt::Repeat(repeat) => {
            let site = SiteId {
                proc,
                index: repeat.site,
            };
            push(&mut leads, site, bound_needs(repeat.bound, repeat.cap))?;
            let inside = leads_in_all(alloc, snapshot, rows, proc, repeat.body.as_slice())?;
            let mut turned = Sources::new(alloc);
            lose(&mut turned, stmt)?;
            push_before(&mut leads, turned.as_slice(), inside.as_slice())?;
            Ok(leads)
        }
    }
}

/// The conditions of the sites in statements in a row, led back to before them.
#[cycle(leads)]
fn leads_in_all(
    alloc: Global,
    snapshot: &Snapshot,
    rows: &[Summary],
    proc: ProcId,
    block: &[CodeStmt],
) -> Result<Leads, AllocError>
    requires { AreSummaries snapshot.now.codes proc.0 rows.now }
    ensures { IfOk result (λ leads. leads ≡ leads_in_all (results snapshot.now.codes proc.0) (insides snapshot.now.codes proc.0) proc (block_of block.now)) }
{
    walk(alloc, snapshot, rows, proc, block, &mut Sources::new(alloc))
}

/// The same, with what the variables hold behind the statements.
#[cycle(leads)]
fn walk(
    alloc: Global,
    snapshot: &Snapshot,
    rows: &[Summary],
    proc: ProcId,
    block: &[CodeStmt],
    sources: &mut Sources,
) -> Result<Leads, AllocError>
    requires rows { AreSummaries snapshot.now.codes proc.0 rows.now }
    requires none { sources.old ≡ [] }
    ensures { IfOk result (λ leads. (leads ≡ leads_in_all (results snapshot.now.codes proc.0) (insides snapshot.now.codes proc.0) proc (block_of block.now)) × StandFor (over_all (results snapshot.now.codes proc.0) (block_of block.now)) sources.new) }
{
    let mut leads = Leads::new(alloc);
    for i in 0..block.len() {
        let behind = leads_in(alloc, snapshot, rows, proc, &block[i])?;
        push_before(&mut leads, sources.as_slice(), behind.as_slice())?;
        step(sources, snapshot, rows, proc, &block[i])?;
    }
    Ok(leads)
}

/// The conditions of the sites in a procedure and in its calls, and what it returns, in terms of its start.
fn summary(
    alloc: Global,
    snapshot: &Snapshot,
    rows: &[Summary],
    proc: ProcId,
) -> Result<Summary, AllocError>
    requires proc { proc.0 < length (procs_of snapshot.now) }
    requires rows { AreSummaries snapshot.now.codes proc.0 rows.now }
    ensures { IfOk result (IsSummary snapshot.now.codes proc.0) }
{
    let code = snapshot.code(proc);
    let mut sources = Sources::new(alloc);
    let leads = walk(
        alloc,
        snapshot,
        rows,
        proc,
        code.block.as_slice(),
        &mut sources,
    )?;
    let result = operand(sources.as_slice(), code.result);
    Ok(Summary { leads, result })
}

/// A summary of each of so many procedures: each made once, from those of the procedures before it, which are all that it
/// calls.
pub(crate) fn summaries(
    alloc: Global,
    snapshot: &Snapshot,
    count: u16,
) -> Result<Items<Summary>, AllocError>
    requires { count ≤ length (procs_of snapshot.now) }
    ensures { IfOk result (AreSummaries snapshot.now.codes count) }
{
    let mut rows = Items::new(alloc);
    for n in 0..count {
        let row = summary(alloc, snapshot, rows.as_slice(), ProcId(n))?;
        rows.push(row)?;
    }
    Ok(rows)
}

/// What has come to the answer of an outside function.
pub(crate) fn asked(led: &SiteLead) -> Option<Found>
    ensures { result ≡ asked led.now }
{
    match led.lead {
        Lead::Asked(name, cond) => Some(Found {
            name,
            cond,
            site: led.site,
        }),
        Lead::Nowhere | Lead::At(..) => None,
    }
}
