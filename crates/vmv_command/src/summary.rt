ghost use Rattle.std.specs.Prelude.{◌≡◌, ◌++◌, IfOk, OnOk, Some, codes, count_by, length};
ghost use Rattle.std.specs.List.{flat_map};
ghost use Rattle.std.specs.Fmt.{decimal};
ghost use Rattle.std.specs.String.{string_bytes};
ghost use Rattle.vmv_report.specs.Texts.{line, verdict_line, range_text, cond_text, zero_mark, is_told, told_line, necessary_lines, counts_line};
ghost use Rattle.vmv_command.specs.Samples.{summary_text, sample_lines};

use std::alloc::{AllocError, Global};
use vmv_assumption::Assumption;
use vmv_edge::Text;
use vmv_need::Needed;
use vmv_report::{Baseline, Report, baseline_text, counts_line, push_held, verdict_line};

// The line of the number of exclusions.
fn exclusions_line(alloc: Global, count: usize) -> Result<String, AllocError>
    ensures { IfOk result (λ text. string_bytes text ≡ line (codes "exclusions " ++ decimal count)) }
{
    format!(in alloc; "exclusions {count}\n")
}

// Writes the lines of what was found of a base that isn't vacuous, and told of its revision.
#[tactic(auto, using(vmv_report::proofs::Writing::writing))]
fn push_reviewed(
    alloc: Global,
    out: &mut Vec<u8>,
    held: &Assumption,
    exclusions: usize,
    report: &Report,
) -> Result<(), AllocError>
    ensures { OnOk result (out.new.items ≡ out.old.items ++ (verdict_line report.now.verdict ++ (necessary_lines (Some held.now) ++ (line (codes "exclusions " ++ decimal exclusions) ++ counts_line report.now.rows)))) }
{
    let exclusions = exclusions_line(alloc, exclusions)?;
    let counts = counts_line(alloc, report.rows.as_slice())?;
    out.extend_from_slice(verdict_line(report.verdict))?;
    push_held(alloc, out, held)?;
    out.extend_from_slice(exclusions.as_bytes())?;
    out.extend_from_slice(counts.as_bytes())
}

// Writes the lines of what was found of a base, and told of its revision.
#[tactic(auto, using(vmv_report::proofs::Writing::writing))]
fn push_summary(
    alloc: Global,
    out: &mut Vec<u8>,
    found: &Baseline,
    report: &Report,
) -> Result<(), AllocError>
    ensures { OnOk result (out.new.items ≡ out.old.items ++ summary_text found.now.base found.now.needed report.now) }
{
    match found.needed() {
        Needed::Conditions { assumption, cuts } => {
            push_reviewed(alloc, out, assumption, cuts.len(), report)
        }
        Needed::Vacuous { .. } => {
            let text = baseline_text(alloc, found)?;
            out.extend_from_slice(text.bytes())
        }
    }
}

/// The lines of the sample of a number.
#[tactic(auto, using(vmv_report::proofs::Writing::writing))]
pub(crate) fn sample_lines(
    alloc: Global,
    number: u64,
    found: &Baseline,
    report: &Report,
) -> Result<Text, AllocError>
    ensures { IfOk result (λ text. text ≡ sample_lines number found.now report.now) }
{
    let first = format!(in alloc; "sample {number}\n")?;
    let mut out = Vec::from_slice(alloc, first.as_bytes())?;
    push_summary(alloc, &mut out, found, report)?;
    Ok(Text::from_vec(out))
}
