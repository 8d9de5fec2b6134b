ghost use Rattle.std.specs.Prelude.{◌≡◌, ◌++◌, ◌∷◌, [], OnOk, IfOk};
ghost use Rattle.std.specs.List.{flat_map};
ghost use Rattle.vmv_proof_text.specs.Parts.{opening_part, exclusions_part, entries_part, end_part, exclude_part, box_part, plain_part, given_part, parts_of_exclusion, parts_of_shown, front_parts, back_parts};
ghost use Rattle.vmv_proof_text.specs.Text.{parts_text, proof_text};

use crate::tables::push_table;
use crate::words::{push_number, push_piece, push_ranges, push_word};
use std::alloc::{AllocError, Global};
use vmv_edge::Text;
use vmv_proof::{Exclusion, Proof, Shown};
use vmv_snapshot::ParamBox;
use vmv_tree::Name;

/// Writes the first line of an exclusion.
#[tactic(auto, using(crate::proofs::Writing::writing))]
pub(crate) fn push_exclude(out: &mut Vec<u8>, exclusion: &Exclusion) -> Result<(), AllocError>
    ensures { OnOk result (out.new.items ≡ out.old.items ++ parts_text (exclude_part exclusion.now.entry exclusion.now.name exclusion.now.piece exclusion.now.under ∷ [])) }
{
    out.extend_from_slice(b"exclude")?;
    push_word(out, exclusion.entry.bytes())?;
    push_word(out, exclusion.name.bytes())?;
    push_piece(out, exclusion.piece)?;
    out.extend_from_slice(b" under ")?;
    push_number(out, exclusion.under as u64)?;
    out.extend_from_slice(b"\n")
}

/// Writes the line of a box.
#[tactic(auto, using(crate::proofs::Writing::writing))]
pub(crate) fn push_box(out: &mut Vec<u8>, within: &ParamBox) -> Result<(), AllocError>
    ensures { OnOk result (out.new.items ≡ out.old.items ++ parts_text (box_part within.now ∷ [])) }
{
    out.extend_from_slice(b"box")?;
    push_ranges(out, within.ranges())?;
    out.extend_from_slice(b"\n")
}

/// Writes the lines of an exclusion.
#[tactic(auto, using(crate::proofs::Writing::writing))]
fn push_exclusion(out: &mut Vec<u8>, exclusion: &Exclusion) -> Result<(), AllocError>
    ensures { OnOk result (out.new.items ≡ out.old.items ++ parts_text (parts_of_exclusion exclusion.now)) }
{
    push_exclude(out, exclusion)?;
    push_box(out, &exclusion.within)?;
    push_table(out, &exclusion.table)
}

/// Writes the lines of exclusions.
#[tactic(auto, using(crate::proofs::Writing::writing))]
fn push_exclusions(out: &mut Vec<u8>, exclusions: &[Exclusion]) -> Result<(), AllocError>
    ensures { OnOk result (out.new.items ≡ out.old.items ++ parts_text (flat_map parts_of_exclusion exclusions.now)) }
{
    for exclusion in exclusions {
        push_exclusion(out, exclusion)?;
    }
    Ok(())
}

/// Writes the line of an entry before its table under the whole assumption.
#[tactic(auto, using(crate::proofs::Writing::writing))]
pub(crate) fn push_plain(out: &mut Vec<u8>, entry: &Name) -> Result<(), AllocError>
    ensures { OnOk result (out.new.items ≡ out.old.items ++ parts_text (plain_part entry.now ∷ [])) }
{
    out.extend_from_slice(b"plain")?;
    push_word(out, entry.bytes())?;
    out.extend_from_slice(b"\n")
}

/// Writes the line of an entry before its table under the assumption that exclusions cut.
#[tactic(auto, using(crate::proofs::Writing::writing))]
pub(crate) fn push_given(out: &mut Vec<u8>, entry: &Name) -> Result<(), AllocError>
    ensures { OnOk result (out.new.items ≡ out.old.items ++ parts_text (given_part entry.now ∷ [])) }
{
    out.extend_from_slice(b"given")?;
    push_word(out, entry.bytes())?;
    out.extend_from_slice(b"\n")
}

/// Writes the lines of what is shown of an entry.
#[tactic(auto, using(crate::proofs::Writing::writing))]
fn push_shown(out: &mut Vec<u8>, shown: &Shown) -> Result<(), AllocError>
    ensures { OnOk result (out.new.items ≡ out.old.items ++ parts_text (parts_of_shown shown.now)) }
{
    push_plain(out, &shown.entry)?;
    push_table(out, &shown.plain)?;
    push_given(out, &shown.entry)?;
    push_table(out, &shown.given)
}

/// Writes the lines of what is shown of entries.
#[tactic(auto, using(crate::proofs::Writing::writing))]
fn push_shown_list(out: &mut Vec<u8>, shown: &[Shown]) -> Result<(), AllocError>
    ensures { OnOk result (out.new.items ≡ out.old.items ++ parts_text (flat_map parts_of_shown shown.now)) }
{
    for entry in shown {
        push_shown(out, entry)?;
    }
    Ok(())
}

/// Writes the first line.
#[tactic(auto, using(crate::proofs::Writing::writing))]
pub(crate) fn push_opening(out: &mut Vec<u8>) -> Result<(), AllocError>
    ensures { OnOk result (out.new.items ≡ out.old.items ++ parts_text (opening_part ∷ [])) }
{
    out.extend_from_slice(b"vmv-proof 1\n")
}

/// Writes the line of a number of exclusions.
#[tactic(auto, using(crate::proofs::Writing::writing))]
pub(crate) fn push_exclusions_heading(
    out: &mut Vec<u8>,
    exclusions: usize,
) -> Result<(), AllocError>
    ensures { OnOk result (out.new.items ≡ out.old.items ++ parts_text (exclusions_part exclusions ∷ [])) }
{
    out.extend_from_slice(b"exclusions ")?;
    push_number(out, exclusions as u64)?;
    out.extend_from_slice(b"\n")
}

/// Writes the line of a number of entries.
#[tactic(auto, using(crate::proofs::Writing::writing))]
pub(crate) fn push_entries_heading(out: &mut Vec<u8>, entries: usize) -> Result<(), AllocError>
    ensures { OnOk result (out.new.items ≡ out.old.items ++ parts_text (entries_part entries ∷ [])) }
{
    out.extend_from_slice(b"entries ")?;
    push_number(out, entries as u64)?;
    out.extend_from_slice(b"\n")
}

/// Writes the last line.
#[tactic(auto, using(crate::proofs::Writing::writing))]
pub(crate) fn push_last(out: &mut Vec<u8>) -> Result<(), AllocError>
    ensures { OnOk result (out.new.items ≡ out.old.items ++ parts_text (end_part ∷ [])) }
{
    out.extend_from_slice(b"end\n")
}

/// Writes the lines of a proof up to its exclusions.
#[tactic(auto, using(crate::proofs::Writing::writing))]
fn push_front(out: &mut Vec<u8>, exclusions: &[Exclusion]) -> Result<(), AllocError>
    ensures { OnOk result (out.new.items ≡ out.old.items ++ parts_text (front_parts exclusions.now)) }
{
    push_opening(out)?;
    push_exclusions_heading(out, exclusions.len())?;
    push_exclusions(out, exclusions)
}

/// Writes the lines of a proof behind its exclusions.
#[tactic(auto, using(crate::proofs::Writing::writing))]
fn push_back(out: &mut Vec<u8>, shown: &[Shown]) -> Result<(), AllocError>
    ensures { OnOk result (out.new.items ≡ out.old.items ++ parts_text (back_parts shown.now)) }
{
    push_entries_heading(out, shown.len())?;
    push_shown_list(out, shown)?;
    push_last(out)
}

/// Writes a proof.
fn push_proof(out: &mut Vec<u8>, proof: &Proof) -> Result<(), AllocError>
    ensures { OnOk result (out.new.items ≡ out.old.items ++ proof_text proof.now) }
{
    push_front(out, proof.exclusions.as_slice())?;
    push_back(out, proof.shown.as_slice())?;
    Ok(())
}

/// The canonical text of a proof. It fails where there is no memory.
pub fn write_proof(alloc: Global, proof: &Proof) -> Result<Text, AllocError>
    ensures { IfOk result (λ text. text ≡ proof_text proof.now) }
{
    let mut out = Vec::new(alloc);
    push_proof(&mut out, proof)?;
    Ok(Text::from_vec(out))
}
