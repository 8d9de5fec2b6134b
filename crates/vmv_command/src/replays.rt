ghost use Rattle.std.specs.Prelude.{◌≡◌, ◌≢◌, ◌++◌, ◌↔◌, map, Ok, IfOk, IsErrOf, IsTrue, codes, ◌≤◌};
ghost use Rattle.std.specs.String.{string_bytes};
ghost use Rattle.vmv_snapshot.specs.Resolution.{tree_of};
ghost use Rattle.vmv_witness.specs.Fit.{Fits};
ghost use Rattle.vmv_report.specs.Texts.{line};
ghost use Rattle.vmv_command.specs.Lines.{IsLine, site_end};
ghost use Rattle.vmv_command.specs.Replays.{witness_fault_end, witness_fault_status, SaysWitnessFault, unfit_number, SaysUnfit, HasProc, FailsInside, IsCalled, SaysFails, SaysOutcome, ReplaysEntry, ReplaysWitness, ReplaysText, ReplaysTexts};
ghost use Rattle.vmv_edge.specs.Outside.{Rose};
ghost use Rattle.vmv_command.specs.Command.{text_most, OnFile};

use crate::faults::fault_output;
use crate::files::{read_text, too_long};
use crate::output::{Output, Stop};
use crate::{TEXT_MOST, TEXT_MOST_BYTES};
use std::alloc::{AllocError, Global};
use vmv_edge::{Shelf, Text};
use vmv_run::{Outcome, replay};
use vmv_snapshot::{ProcId, SiteId, Snapshot};
use vmv_source::parse;
use vmv_tree::{Name, NamedSite};
use vmv_witness::{ParamValue, Unfit, Witness, WitnessFault, fit, read_witness};

// What the line of a fault has behind `witness`.
fn witness_fault_end(alloc: Global, fault: WitnessFault) -> Result<String, AllocError>
    ensures end { IfOk result (λ end. string_bytes end ≡ witness_fault_end fault) }
    ensures told { IfOk result (λ _. fault ≢ WitnessFault.Memory) }
{
    match fault {
        WitnessFault::Syntax { line } => format!(in alloc; ": syntax at line {line}\n"),
        WitnessFault::Range { line } => format!(in alloc; ": range at line {line}\n"),
        WitnessFault::Limit { found } => {
            format!(in alloc; ": limit bytes found {found} most 1048576\n")
        }
        WitnessFault::Memory => Err(AllocError),
    }
}

fn witness_fault_status(fault: WitnessFault) -> u8
    ensures same { result ≡ witness_fault_status fault }
    ensures known { result ≤ 9 }
{
    match fault {
        WitnessFault::Syntax { .. } | WitnessFault::Range { .. } => 4,
        WitnessFault::Limit { .. } => 5,
        WitnessFault::Memory => 8,
    }
}

// The line of a fault of the witness. There is none for want of memory.
fn witness_fault_output(alloc: Global, fault: WitnessFault) -> Result<Output, AllocError>
    ensures says { IfOk result (λ output. SaysWitnessFault fault output.text output.status) }
    ensures told { IfOk result (λ _. fault ≢ WitnessFault.Memory) }
{
    let end = witness_fault_end(alloc, fault)?;
    let mut text = Vec::from_slice(alloc, b"witness")?;
    text.extend_from_slice(end.as_bytes())?;
    Ok(Output {
        text: Text::from_vec(text),
        status: witness_fault_status(fault),
    })
}

fn unfit_number(why: Unfit) -> u8
    ensures { result ≡ unfit_number why }
{
    match why {
        Unfit::NoEntry => 1,
        Unfit::ParamCount => 2,
        Unfit::ParamRange => 3,
        Unfit::NoSite => 4,
    }
}

// The line of a witness that doesn't fit.
fn unfit_output(alloc: Global, why: Unfit) -> Result<Output, AllocError>
    ensures { IfOk result (λ output. SaysUnfit why output.text output.status) }
{
    let number = unfit_number(why);
    let line = format!(in alloc; "unfit {number}\n")?;
    Output::of(alloc, line.as_bytes(), 1)
}

fn is_same(name: &Name, other: &Name) -> bool
    ensures { IsTrue result ↔ (name.now ≡ other.now) }
{
    name.bytes() == other.bytes()
}

// 0 where they are the same, else 1.
fn fails_status(at: &NamedSite, named: &NamedSite) -> u8
    ensures same { at.now ≡ named.now → result ≡ 0 }
    ensures other { at.now ≢ named.now → result ≡ 1 }
    ensures known { result ≤ 9 }
{
    let same = is_same(&at.proc, &named.proc) && at.index == named.index;
    if same { 0 } else { 1 }
}

// The end of a line that names a site, behind the name of its procedure.
fn site_end(alloc: Global, site: u32) -> Result<String, AllocError>
    ensures { IfOk result (λ end. string_bytes end ≡ site_end site) }
{
    format!(in alloc; "#{site}\n")
}

// The line of a run that fails at a site, where the witness has this one.
fn fails_output(alloc: Global, at: &NamedSite, named: &NamedSite) -> Result<Output, AllocError>
    ensures { IfOk result (λ output. SaysFails at.now named.now output.text output.status) }
{
    let end = site_end(alloc, at.index)?;
    let mut text = Vec::from_slice(alloc, b"fails ")?;
    text.extend_from_slice(at.proc.bytes())?;
    text.extend_from_slice(end.as_bytes())?;
    Ok(Output {
        text: Text::from_vec(text),
        status: fails_status(at, named),
    })
}

// A site by the name of its procedure.
fn called(snapshot: &Snapshot, site: SiteId) -> NamedSite
    requires { HasProc (tree_of snapshot.now) site }
    ensures { IsCalled (tree_of snapshot.now) site result }
{
    NamedSite {
        proc: snapshot.proc_name(site.proc),
        index: site.index,
    }
}

// The line of what a replay has found, where the witness names this site.
fn outcome_output(
    alloc: Global,
    snapshot: &Snapshot,
    named: &NamedSite,
    outcome: Outcome,
) -> Result<Output, AllocError>
    requires { FailsInside (tree_of snapshot.now) outcome }
    ensures { IfOk result (λ output. SaysOutcome (tree_of snapshot.now) named.now outcome output.text output.status) }
{
    let line = match outcome {
        Outcome::Done(word) => format!(in alloc; "done {word}\n")?,
        Outcome::Fail(site) => return fails_output(alloc, &called(snapshot, site), named),
        Outcome::Short { at } => format!(in alloc; "short at {at}\n")?,
        Outcome::Stranger { at } => format!(in alloc; "stranger at {at}\n")?,
        Outcome::Extra { used } => format!(in alloc; "extra after {used}\n")?,
    };
    Output::of(alloc, line.as_bytes(), 1)
}

// The words of the parameters, in order.
fn words_of(alloc: Global, params: &[ParamValue]) -> Result<Vec<i64>, AllocError>
    ensures { IfOk result (λ words. words.items ≡ map (λ p. p.value) params.now) }
{
    let mut words = Vec::new(alloc);
    for param in params {
        words.push(param.value)?;
    }
    Ok(words)
}

// The replay of a witness that fits.
fn replay_entry(
    alloc: Global,
    snapshot: &Snapshot,
    witness: &Witness,
    entry: ProcId,
) -> Result<Output, AllocError>
    requires { Fits (tree_of snapshot.now) witness.now (Ok entry) }
    ensures { IfOk result (λ output. ReplaysEntry (tree_of snapshot.now) witness.now output.text output.status) }
{
    let words = words_of(alloc, witness.params.as_slice())?;
    let outcome = replay(snapshot, entry, &words, witness.answers.as_slice());
    outcome_output(alloc, snapshot, &witness.site, outcome)
}

// The replay of a witness over a valid program.
fn replay_witness(
    alloc: Global,
    snapshot: &Snapshot,
    witness: &Witness,
) -> Result<Output, AllocError>
    ensures { IfOk result (λ output. ReplaysWitness (tree_of snapshot.now) witness.now output.text output.status) }
{
    match fit(snapshot, witness) {
        Ok(entry) => replay_entry(alloc, snapshot, witness, entry),
        Err(why) => unfit_output(alloc, why),
    }
}

// The replay of a witness text over a valid program.
fn replay_text(alloc: Global, snapshot: &Snapshot, witness: &Text) -> Result<Output, AllocError>
    ensures { IfOk result (λ output. ReplaysText witness.now (tree_of snapshot.now) output.text output.status) }
{
    match read_witness(alloc, witness.bytes()) {
        Ok(witness) => replay_witness(alloc, snapshot, &witness),
        Err(fault) => witness_fault_output(alloc, fault),
    }
}

// The replay of two texts.
fn replay_texts(alloc: Global, revision: &Text, witness: &Text) -> Result<Output, AllocError>
    ensures { IfOk result (λ output. ReplaysTexts revision.now witness.now output.text output.status) }
{
    match parse(alloc, revision.bytes()) {
        Ok(revision) => replay_text(alloc, &revision, witness),
        Err(fault) => fault_output(alloc, "revision", fault),
    }
}

/// The replay of the texts under two names.
pub(crate) fn replay_files<F: Shelf>(
    alloc: Global,
    shelf: &mut F,
    revision: &str,
    witness: &str,
) -> Result<Output, Stop>
    ensures output { IfOk result (λ output. OnFile (F.told shelf.old) revision.now (codes "revision") text_most (λ r. OnFile (F.told shelf.old) witness.now (codes "witness") text_most (ReplaysTexts r)) output.text output.status) }
    ensures failed { IsErrOf result Stop.Failed → Rose (F.fault_count shelf.old) (F.fault_count shelf.new) }
    ensures stands { ¬ (IsErrOf result Stop.Failed) → F.fault_count shelf.new ≡ F.fault_count shelf.old }
{
    let Some(revision) = read_text(alloc, shelf, revision, TEXT_MOST_BYTES)? else {
        return Ok(too_long(alloc, "revision", TEXT_MOST)?);
    };
    let Some(witness) = read_text(alloc, shelf, witness, TEXT_MOST_BYTES)? else {
        return Ok(too_long(alloc, "witness", TEXT_MOST)?);
    };
    Ok(replay_texts(alloc, &revision, &witness)?)
}
