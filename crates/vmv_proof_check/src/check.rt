ghost use Rattle.std.specs.Prelude.{◌≡◌, ◌<◌, ◌+◌, ◌^◌, Some, true, IfOk, IfErr, OnOk, map, length, slice_get};
ghost use Rattle.std.specs.List.{Contains};
ghost use Rattle.vmv_tree.specs.Safe.{RelCorrect};
ghost use Rattle.vmv_snapshot.specs.Procs.{is_entry};
ghost use Rattle.vmv_snapshot.specs.Resolution.{tree_of, procs_of, IsResolution};
ghost use Rattle.vmv_assumption.specs.Assumed.{cond_of};
ghost use Rattle.vmv_proof_check.specs.Parts.{IsShaped};
ghost use Rattle.vmv_proof_check.specs.Counts.{AreCounted};
ghost use Rattle.vmv_proof_check.specs.Proofs.{IsProofAccepted, IsWhyRefused, IsSmall};
ghost use Rattle.vmv_proof_check.specs.Work.{AreTablesListed, IsEntryRefused, IsReady, IsTallied, AreAllTallied, IsShownRefused};

use crate::claims::{Claims, Part, ProofRefused};
use crate::count::count_entry;
use crate::exclusion::check_exclusions;
use crate::shape::is_shaped;
use crate::shown::listed;
use crate::tally::{Checking, Lists, Tally};
use std::alloc::Global;
use vmv_assumption::Assumption;
use vmv_proof::{Proof, Shown};
use vmv_snapshot::{ProcId, Snapshot};

/// The sites that both tables of an entry list, or the first failure of these.
fn lists_of(
    alloc: Global,
    checking: &Checking<'_>,
    entry: ProcId,
    s: &Shown,
) -> Result<Lists, ProofRefused>
    requires resolution { IsResolution checking.now.revision.now }
    requires entry { slice_get (map is_entry (procs_of checking.now.revision.now)) entry.0 ≡ Some true }
    requires plain { length s.now.plain.rows < 2 ^ 32 }
    requires given { length s.now.given.rows < 2 ^ 32 }
    ensures lists { IfOk result (AreTablesListed checking.now entry.0 s.now) }
    ensures refused { IfErr result (IsEntryRefused checking.now entry.0 s.now) }
{
    let revision = checking.revision;
    let name = s.entry;
    let plain = listed(
        alloc,
        revision,
        checking.whole,
        entry,
        &s.plain,
        Part::Plain(name),
    )?;
    let given = listed(
        alloc,
        revision,
        checking.cut,
        entry,
        &s.given,
        Part::Given(name),
    )?;
    Ok(Lists { plain, given })
}

/// Checks what is shown of a procedure that is an entry, and counts its rows.
fn check_entry(
    alloc: Global,
    checking: &Checking<'_>,
    number: u16,
    tally: &mut Tally,
) -> Result<(), ProofRefused>
    requires ready { IsReady checking.now }
    requires number { number < length (procs_of checking.now.revision.now) }
    requires before { IsTallied checking.now number tally.old }
    ensures tallied { OnOk result (IsTallied checking.now (number + 1) tally.new) }
    ensures refused { IfErr result (IsShownRefused checking.now) }
{
    let entry = ProcId(number);
    if !checking.revision.is_entry(entry) {
        return Ok(());
    }
    let s = &checking.shown[tally.next];
    match lists_of(alloc, checking, entry, s) {
        Ok(lists) => {
            count_entry(&mut tally.claims, checking, &lists, entry);
            tally.next += 1;
            Ok(())
        }
        Err(why) => Err(why),
    }
}

/// Checks what is shown of the entries, and counts the rows.
fn check_entries(alloc: Global, checking: &Checking<'_>) -> Result<Claims, ProofRefused>
    requires { IsReady checking.now }
    ensures tallied { IfOk result (AreAllTallied checking.now) }
    ensures refused { IfErr result (IsShownRefused checking.now) }
{
    let mut tally = Tally {
        claims: Claims {
            clean: 0,
            hidden: 0,
            left: 0,
        },
        next: 0,
    };
    for number in 0..checking.revision.proc_count() {
        if let Err(why) = check_entry(alloc, checking, number, &mut tally) {
            return Err(why);
        }
    }
    Ok(tally.claims)
}

/// Checks a proof, from anywhere, for a base and a revision. It succeeds exactly where each part passes, with the counts of the
/// revision's rows, and fails exactly with the first part, row and step that don't, and for want of memory. Where no row is left, the
/// revision is relatively correct.
///
/// No list in the proof has 2^32 members or more.
pub fn check_proof(
    alloc: Global,
    base: &Snapshot,
    revision: &Snapshot,
    proof: &Proof,
) -> Result<Claims, ProofRefused>
    requires { IsSmall proof.now }
    ensures accepted { IfOk result (IsProofAccepted base.now revision.now proof.now) }
    ensures refused { IfErr result (IsWhyRefused base.now revision.now proof.now) }
    ensures correct { IfOk result (λ claims. claims.left ≡ 0 → RelCorrect (tree_of base.now) (tree_of revision.now)) }
{
    let _base = base.program(); // both are valid
    let _revision = revision.program();
    let cut = check_exclusions(alloc, base, proof.exclusions.as_slice())?;
    if !is_shaped(alloc, revision, proof.shown.as_slice())? {
        return Err(ProofRefused::At {
            part: Part::Shape,
            row: 0,
            step: 0,
        });
    }
    let whole = Assumption::whole(alloc, base)?;
    let checking = Checking {
        revision,
        shown: proof.shown.as_slice(),
        whole: &whole,
        cut: &cut,
    };
    match check_entries(alloc, &checking) {
        Ok(claims) => Ok(claims),
        Err(why) => Err(why),
    }
}
