ghost use Rattle.std.specs.Prelude.{◌≡◌, ◌↔◌, ◌<◌, ◌≤◌, ◌+◌, ◌/◌, ◌^◌, ◌∷◌, ◌++◌, [], ℕ, List, Some, None, IfOk, IfErr, IsTrue, IsFalse, length};
ghost use Rattle.std.specs.List.{Contains};
ghost use Rattle.vmv_proof.specs.declared.proof.Exclusion.{Exclusion as Excluded};
ghost use Rattle.vmv_tree.specs.declared.tree.Param.{Param};
ghost use Rattle.vmv_cert.specs.declared.row.Reach.TheVariants.{Bottom};
ghost use Rattle.vmv_snapshot.specs.Resolution.{Resolution, IsResolution};
ghost use Rattle.vmv_assumption.specs.Assumed.{cond_of};
ghost use Rattle.vmv_proof_check.specs.Parts.{HasRow, IsNamedEntry, ExclusionTurns, AllPass};
ghost use Rattle.vmv_proof_check.specs.Work.{AreCuts, AreNamed, IsCutFor, IsDeadTried, turn_of, IsRefusedExclusion};

use crate::claims::{Part, ProofRefused};
use crate::cuts::Cuts;
use crate::entry::is_headed;
use crate::sought::{has_dead, seek};
use std::alloc::{AllocError, Global};
use vmv_assumption::Assumption;
use vmv_check::{Refused, check_table};
use vmv_proof::Exclusion;
use vmv_snapshot::{ProcId, Snapshot};

/// Whether the table of an exclusion has a row that says that the entry doesn't return from the box.
fn says_no_return(x: &Exclusion) -> bool
    requires { length x.now.within ≤ 16 }
    ensures { (base : Resolution) (number : ℕ) (params : List Param) → IsNamedEntry base x.now.entry number params → IsTrue result ↔ HasRow base number x.now.within (λ row. row.result ≡ Bottom) x.now.table.rows }
{
    let sought = seek(x.entry, &x.within);
    has_dead(&sought, x.table.rows.as_slice())
}

/// The failure of a table that is accepted, where the row that it needs isn't there.
pub(crate) fn without_row(there: bool) -> Option<Refused>
    ensures passes { IsTrue there → result ≡ None }
    ensures fails { IsFalse there → result ≡ Some (record { row = 0; step = 0 }) }
{
    if there {
        None
    } else {
        Some(Refused { row: 0, step: 0 })
    }
}

/// The first failure of the table of an exclusion; `None` where it says that the entry doesn't return from the box.
fn tried(base: &Snapshot, assumed: &Assumption, x: &Exclusion) -> Option<Refused>
    requires ranges { length x.now.within ≤ 16 }
    requires few { length x.now.table.rows < 2 ^ 32 }
    ensures { IsDeadTried base.now (cond_of assumed.now) x.now (turn_of result) }
{
    match check_table(base, assumed, &x.table) {
        Ok(_) => without_row(says_no_return(x)),
        Err(at) => Some(at),
    }
}

/// The first failure of an exclusion, before which these stand; `None` where it passes.
fn turns(
    alloc: Global,
    base: &Snapshot,
    cuts: &Cuts,
    before: &[Exclusion],
    x: &Exclusion,
) -> Result<Option<Refused>, AllocError>
    requires resolution { IsResolution base.now }
    requires few { length x.now.table.rows < 2 ^ 32 }
    requires cuts { AreCuts base.now before.now cuts.now }
    requires named { AreNamed base.now before.now }
    ensures { IfOk result (λ at. ExclusionTurns base.now before.now x.now (turn_of at)) }
{
    if !is_headed(base, before, x) {
        return Ok(Some(Refused { row: 0, step: 0 }));
    }
    let mut assumed = cuts.behind(alloc, before, x.under as usize)?;
    let _held = assumed.keep_to(&x.name, x.piece);
    Ok(tried(base, &assumed, x))
}

/// What is assumed behind all exclusions, each of which passes, or the first that fails.
pub(crate) fn check_exclusions(
    alloc: Global,
    base: &Snapshot,
    exclusions: &[Exclusion],
) -> Result<Assumption, ProofRefused>
    requires resolution { IsResolution base.now }
    requires count { length exclusions.now < 2 ^ 32 }
    requires few { (x : Excluded) → Contains exclusions.now x → length x.table.rows < 2 ^ 32 }
    ensures cut { IfOk result (λ held. IsCutFor base.now exclusions.now held) }
    ensures pass { IfOk result (λ held. AllPass base.now exclusions.now) }
    ensures refused { IfErr result (IsRefusedExclusion base.now exclusions.now) }
{
    let mut cuts = Cuts::new(alloc, base)?;
    for i in 0..exclusions.len() {
        let x = &exclusions[i];
        let before = &exclusions[..i];
        match turns(alloc, base, &cuts, before, x)? {
            Some(at) => {
                return Err(ProofRefused::At {
                    part: Part::Exclusion(i as u32 + 1),
                    row: at.row,
                    step: at.step,
                });
            }
            None => cuts.add(alloc, before, x)?,
        }
    }
    Ok(cuts.last)
}
