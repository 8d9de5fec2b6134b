ghost use Rattle.std.specs.Prelude.{◌≡◌, ◌++◌, IfOk, OnOk, Option, Some, None, count_by, map};
ghost use Rattle.std.specs.List.{flat_map};
ghost use Rattle.std.specs.String.{string_bytes};
ghost use Rattle.vmv_report.specs.Texts.{range_text, cond_text, is_whole, is_zero_left_out, zero_mark, is_told, condition_line, told_line, conditions_lines, necessary_lines, sufficient_lines};

use std::alloc::{AllocError, Global};
use vmv_assumption::Assumption;
use vmv_cond::Cond;
use vmv_tree::Name;

/// The text of a range.
pub(crate) fn range_text(alloc: Global, lo: i64, hi: i64) -> Result<String, AllocError>
    ensures { IfOk result (λ text. string_bytes text ≡ range_text lo hi) }
{
    format!(in alloc; "{lo}..{hi}")
}

/// Whether every word meets the condition.
pub fn is_whole(cond: Cond) -> bool
    ensures { result ≡ is_whole cond }
{
    cond.lo() == i64::MIN && cond.hi() == i64::MAX && !cond.zero_out()
}

/// Whether 0 stands inside the condition's range and is left out.
pub fn is_zero_left_out(cond: Cond) -> bool
    ensures { result ≡ is_zero_left_out cond }
{
    cond.zero_out() && cond.lo() < 0 && 0 < cond.hi()
}

/// What is written behind a condition's range, where 0 is left out of it.
fn zero_mark(cond: Cond) -> &'static [u8]
    ensures { result.now ≡ zero_mark cond }
{
    if is_zero_left_out(cond) {
        return b" not 0";
    }
    b""
}

/// Writes a condition.
#[tactic(auto, using(crate::proofs::Writing::writing))]
fn push_cond(alloc: Global, out: &mut Vec<u8>, cond: Cond) -> Result<(), AllocError>
    ensures { OnOk result (out.new.items ≡ out.old.items ++ cond_text cond) }
{
    let range = range_text(alloc, cond.lo(), cond.hi())?;
    out.extend_from_slice(range.as_bytes())?;
    out.extend_from_slice(zero_mark(cond))
}

/// Writes the line of a name and its condition.
#[tactic(auto, using(crate::proofs::Writing::writing))]
fn push_condition(
    alloc: Global,
    out: &mut Vec<u8>,
    name: &Name,
    cond: Cond,
) -> Result<(), AllocError>
    ensures { OnOk result (out.new.items ≡ out.old.items ++ condition_line (name.now, cond)) }
{
    out.extend_from_slice(b"  ")?;
    out.extend_from_slice(name.bytes())?;
    out.extend_from_slice(b" ")?;
    push_cond(alloc, out, cond)?;
    out.extend_from_slice(b"\n")
}

/// Writes the line of a name, where its condition is told.
#[tactic(auto, using(crate::proofs::Writing::writing))]
fn push_told(alloc: Global, out: &mut Vec<u8>, held: &(Name, Cond)) -> Result<(), AllocError>
    ensures { OnOk result (out.new.items ≡ out.old.items ++ told_line held.now) }
{
    if !is_whole(held.1) {
        push_condition(alloc, out, &held.0, held.1)?;
    }
    Ok(())
}

/// How many conditions are told.
fn told_count(held: &[(Name, Cond)]) -> usize
    ensures { result ≡ count_by is_told held.now }
{
    held.iter().filter(|h| !is_whole(h.1)).count()
}

/// Writes a word, how many conditions are told, and these.
#[tactic(auto, using(crate::proofs::Writing::writing))]
fn push_conditions(
    alloc: Global,
    out: &mut Vec<u8>,
    word: &[u8],
    held: &[(Name, Cond)],
) -> Result<(), AllocError>
    ensures { OnOk result (out.new.items ≡ out.old.items ++ conditions_lines word.now held.now) }
{
    let count = told_count(held);
    let number = format!(in alloc; "{count}")?;
    out.extend_from_slice(word)?;
    out.extend_from_slice(number.as_bytes())?;
    out.extend_from_slice(b"\n")?;
    push_all_told(alloc, out, held)
}

/// Writes the lines of the conditions that are told.
#[tactic(auto, using(crate::proofs::Writing::writing))]
fn push_all_told(alloc: Global, out: &mut Vec<u8>, held: &[(Name, Cond)]) -> Result<(), AllocError>
    ensures { OnOk result (out.new.items ≡ out.old.items ++ flat_map told_line held.now) }
{
    for h in held {
        push_told(alloc, out, h)?;
    }
    Ok(())
}

/// Writes necessary conditions: their number, and a line for each that is told. It fails for want of memory alone.
#[tactic(auto, using(crate::proofs::Writing::writing))]
pub fn push_held(alloc: Global, out: &mut Vec<u8>, held: &Assumption) -> Result<(), AllocError>
    ensures { OnOk result (out.new.items ≡ out.old.items ++ necessary_lines (Some held.now)) }
{
    push_conditions(alloc, out, b"necessary ", held.conds())
}

/// Writes the necessary conditions; there are none of a vacuous base.
#[tactic(auto, using(crate::proofs::Writing::writing))]
pub(crate) fn push_necessary(
    alloc: Global,
    out: &mut Vec<u8>,
    conditions: &Option<Assumption>,
) -> Result<(), AllocError>
    ensures { OnOk result (out.new.items ≡ out.old.items ++ necessary_lines conditions.now) }
{
    if let Some(assumed) = conditions {
        push_held(alloc, out, assumed)?;
    }
    Ok(())
}

/// Writes the sufficient conditions, or that there are none.
#[tactic(auto, using(crate::proofs::Writing::writing))]
pub(crate) fn push_sufficient(
    alloc: Global,
    out: &mut Vec<u8>,
    conditions: &Option<Assumption>,
) -> Result<(), AllocError>
    ensures { OnOk result (out.new.items ≡ out.old.items ++ sufficient_lines conditions.now) }
{
    match conditions {
        Some(assumed) => push_conditions(alloc, out, b"sufficient ", assumed.conds()),
        None => out.extend_from_slice(b"sufficient none\n"),
    }
}
