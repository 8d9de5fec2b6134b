ghost use Rattle.std.specs.Prelude.{◌≡◌, ◌≢◌, ◌++◌, IfOk, IsErrOf, codes, ◌≤◌};
ghost use Rattle.std.specs.String.{string_bytes};
ghost use Rattle.vmv_edge.specs.Outside.{Rose};
ghost use Rattle.vmv_snapshot.specs.Resolution.{tree_of};
ghost use Rattle.vmv_proof_check.specs.Proofs.{IsSmall};
ghost use Rattle.vmv_command.specs.Command.{text_most, proof_most, OnFile};
ghost use Rattle.vmv_command.specs.Rechecks.{proof_fault_end, proof_fault_status, SaysProofFault, claims_text, accepted_status, SaysAccepted, part_text, place_text, SaysRefused, RechecksPrograms, RechecksProof, RechecksTexts};

use crate::faults::fault_output;
use crate::files::{read_text, too_long};
use crate::output::{Output, Stop};
use crate::{PROOF_MOST, PROOF_MOST_BYTES, TEXT_MOST, TEXT_MOST_BYTES};
use std::alloc::{AllocError, Global};
use vmv_edge::{Shelf, Text};
use vmv_proof::Proof;
use vmv_proof_check::{Claims, Part, ProofRefused, check_proof};
use vmv_proof_read::{ProofFault, read_proof};
use vmv_snapshot::Snapshot;
use vmv_source::parse;

// What the line of a fault has behind `proof`.
fn proof_fault_end(alloc: Global, fault: ProofFault) -> Result<String, AllocError>
    ensures end { IfOk result (λ end. string_bytes end ≡ proof_fault_end fault) }
    ensures told { IfOk result (λ _. fault ≢ ProofFault.Memory) }
{
    match fault {
        ProofFault::Syntax { line } => format!(in alloc; ": syntax at line {line}\n"),
        ProofFault::Range { line } => format!(in alloc; ": range at line {line}\n"),
        ProofFault::Limit { found } => {
            format!(in alloc; ": limit bytes found {found} most 67108864\n")
        }
        ProofFault::Memory => Err(AllocError),
    }
}

fn proof_fault_status(fault: ProofFault) -> u8
    ensures same { result ≡ proof_fault_status fault }
    ensures known { result ≤ 9 }
{
    match fault {
        ProofFault::Syntax { .. } | ProofFault::Range { .. } => 4,
        ProofFault::Limit { .. } => 5,
        ProofFault::Memory => 8,
    }
}

// The line of a fault of the proof's text. There is none for want of memory.
fn proof_fault_output(alloc: Global, fault: ProofFault) -> Result<Output, AllocError>
    ensures says { IfOk result (λ output. SaysProofFault fault output.text output.status) }
    ensures told { IfOk result (λ _. fault ≢ ProofFault.Memory) }
{
    let end = proof_fault_end(alloc, fault)?;
    let mut text = Vec::from_slice(alloc, b"proof")?;
    text.extend_from_slice(end.as_bytes())?;
    Ok(Output {
        text: Text::from_vec(text),
        status: proof_fault_status(fault),
    })
}

fn accepted_status(left: u32) -> u8
    ensures same { result ≡ accepted_status left }
    ensures known { result ≤ 9 }
{
    if left == 0 { 0 } else { 1 }
}

// The counts of the revision's rows.
fn claims_text(alloc: Global, claims: Claims) -> Result<String, AllocError>
    ensures { IfOk result (λ text. string_bytes text ≡ claims_text claims) }
{
    let Claims {
        clean,
        hidden,
        left,
    } = claims;
    format!(in alloc; "clean {clean} hidden {hidden} left {left}")
}

// The line of a proof that is accepted.
fn accepted_output(alloc: Global, claims: Claims) -> Result<Output, AllocError>
    ensures { IfOk result (λ output. SaysAccepted claims output.text output.status) }
{
    let counts = claims_text(alloc, claims)?;
    let line = format!(in alloc; "accepted {counts}\n")?;
    Output::of(alloc, line.as_bytes(), accepted_status(claims.left))
}

// One text and the other behind it.
fn joined(alloc: Global, front: &[u8], back: &[u8]) -> Result<Text, AllocError>
    ensures { IfOk result (λ text. text ≡ front.now ++ back.now) }
{
    let mut text = Vec::from_slice(alloc, front)?;
    text.extend_from_slice(back)?;
    Ok(Text::from_vec(text))
}

// What a part of a proof is called.
fn part_text(alloc: Global, part: Part) -> Result<Text, AllocError>
    ensures { IfOk result (λ text. text ≡ part_text part) }
{
    match part {
        Part::Exclusion(number) => {
            let text = format!(in alloc; "exclusion {number}")?;
            Text::from_slice(alloc, text.as_bytes())
        }
        Part::Plain(entry) => joined(alloc, b"plain ", entry.bytes()),
        Part::Given(entry) => joined(alloc, b"given ", entry.bytes()),
        Part::Shape => Text::from_slice(alloc, b"shape"),
    }
}

// The line of a proof that is refused.
fn refused_output(alloc: Global, part: Part, row: u32, step: u32) -> Result<Output, AllocError>
    ensures { IfOk result (λ output. SaysRefused part row step output.text output.status) }
{
    let part = part_text(alloc, part)?;
    let place = format!(in alloc; " row {row} step {step}\n")?;
    let mut text = Vec::from_slice(alloc, b"refused ")?;
    text.extend_from_slice(part.bytes())?;
    text.extend_from_slice(place.as_bytes())?;
    Ok(Output {
        text: Text::from_vec(text),
        status: 1,
    })
}

// The check of a proof for two valid programs.
fn recheck_programs(
    alloc: Global,
    base: &Snapshot,
    revision: &Snapshot,
    proof: &Proof,
) -> Result<Output, AllocError>
    requires { IsSmall proof.now }
    ensures { IfOk result (λ output. RechecksPrograms (tree_of base.now) (tree_of revision.now) proof.now output.text output.status) }
{
    let _base = base.program(); // both are resolved
    let _revision = revision.program();
    match check_proof(alloc, base, revision, proof) {
        Ok(claims) => accepted_output(alloc, claims),
        Err(ProofRefused::At { part, row, step }) => refused_output(alloc, part, row, step),
        Err(ProofRefused::Memory) => Err(AllocError),
    }
}

// The check of a proof's text for two valid programs.
fn recheck_proof(
    alloc: Global,
    base: &Snapshot,
    revision: &Snapshot,
    proof: &Text,
) -> Result<Output, AllocError>
    ensures { IfOk result (λ output. RechecksProof proof.now (tree_of base.now) (tree_of revision.now) output.text output.status) }
{
    match read_proof(alloc, proof.bytes()) {
        Ok(proof) => recheck_programs(alloc, base, revision, &proof),
        Err(fault) => proof_fault_output(alloc, fault),
    }
}

// The check of three texts.
fn recheck_texts(
    alloc: Global,
    base: &Text,
    revision: &Text,
    proof: &Text,
) -> Result<Output, AllocError>
    ensures { IfOk result (λ output. RechecksTexts base.now revision.now proof.now output.text output.status) }
{
    let base = match parse(alloc, base.bytes()) {
        Ok(base) => base,
        Err(fault) => return fault_output(alloc, "base", fault),
    };
    let revision = match parse(alloc, revision.bytes()) {
        Ok(revision) => revision,
        Err(fault) => return fault_output(alloc, "revision", fault),
    };
    recheck_proof(alloc, &base, &revision, proof)
}

/// The check of the texts under three names.
pub(crate) fn recheck_files<F: Shelf>(
    alloc: Global,
    shelf: &mut F,
    base: &str,
    revision: &str,
    proof: &str,
) -> Result<Output, Stop>
    ensures output { IfOk result (λ output. OnFile (F.told shelf.old) base.now (codes "base") text_most (λ b. OnFile (F.told shelf.old) revision.now (codes "revision") text_most (λ r. OnFile (F.told shelf.old) proof.now (codes "proof") proof_most (RechecksTexts b r))) output.text output.status) }
    ensures failed { IsErrOf result Stop.Failed → Rose (F.fault_count shelf.old) (F.fault_count shelf.new) }
    ensures stands { ¬ (IsErrOf result Stop.Failed) → F.fault_count shelf.new ≡ F.fault_count shelf.old }
{
    let Some(base) = read_text(alloc, shelf, base, TEXT_MOST_BYTES)? else {
        return Ok(too_long(alloc, "base", TEXT_MOST)?);
    };
    let Some(revision) = read_text(alloc, shelf, revision, TEXT_MOST_BYTES)? else {
        return Ok(too_long(alloc, "revision", TEXT_MOST)?);
    };
    let Some(proof) = read_text(alloc, shelf, proof, PROOF_MOST_BYTES)? else {
        return Ok(too_long(alloc, "proof", PROOF_MOST)?);
    };
    Ok(recheck_texts(alloc, &base, &revision, &proof)?)
}
