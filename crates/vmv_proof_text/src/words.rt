ghost use Rattle.std.specs.Prelude.{◌≡◌, ◌++◌, ◌∷◌, codes, OnOk};
ghost use Rattle.std.specs.Fmt.{decimal, signed_decimal};
ghost use Rattle.std.specs.List.{flat_map};
ghost use Rattle.vmv_proof_text.specs.Text.{spaced, piece_text, range_words, range_text, cond_text, reach_text, site_word, zero_text, is_zero_left_out};

use itoa::Buffer;
use std::alloc::AllocError;
use vmv_cert::Reach;
use vmv_cond::{Cond, Piece};
use vmv_tree::NamedSite;

/// Writes a number.
pub(crate) fn push_number(out: &mut Vec<u8>, number: u64) -> Result<(), AllocError>
    ensures { OnOk result (out.new.items ≡ out.old.items ++ decimal number) }
{
    let mut buffer = Buffer::new();
    out.extend_from_slice(buffer.format(number).as_bytes())
}

/// Writes a whole number.
pub(crate) fn push_signed(out: &mut Vec<u8>, number: i128) -> Result<(), AllocError>
    ensures { OnOk result (out.new.items ≡ out.old.items ++ signed_decimal number) }
{
    let mut buffer = Buffer::new();
    out.extend_from_slice(buffer.format(number).as_bytes())
}

/// Writes a space and a word.
pub(crate) fn push_word(out: &mut Vec<u8>, word: &[u8]) -> Result<(), AllocError>
    ensures { OnOk result (out.new.items ≡ out.old.items ++ spaced word.now) }
{
    out.extend_from_slice(b" ")?;
    out.extend_from_slice(word)
}

/// Writes a space and a number.
pub(crate) fn push_count(out: &mut Vec<u8>, number: u64) -> Result<(), AllocError>
    ensures { OnOk result (out.new.items ≡ out.old.items ++ spaced (decimal number)) }
{
    out.extend_from_slice(b" ")?;
    push_number(out, number)
}

/// Writes a space and a whole number.
pub(crate) fn push_end(out: &mut Vec<u8>, number: i128) -> Result<(), AllocError>
    ensures { OnOk result (out.new.items ≡ out.old.items ++ spaced (signed_decimal number)) }
{
    out.extend_from_slice(b" ")?;
    push_signed(out, number)
}

/// Writes the words of a piece.
#[tactic(auto, using(crate::proofs::Writing::writing))]
pub(crate) fn push_piece(out: &mut Vec<u8>, piece: Piece) -> Result<(), AllocError>
    ensures { OnOk result (out.new.items ≡ out.old.items ++ piece_text piece) }
{
    match piece {
        Piece::Below(end) => {
            out.extend_from_slice(b" below ")?;
            push_signed(out, end as i128)
        }
        Piece::Above(end) => {
            out.extend_from_slice(b" above ")?;
            push_signed(out, end as i128)
        }
        Piece::Zero => out.extend_from_slice(b" zero"),
    }
}

/// Writes a range of a box.
#[tactic(auto, using(crate::proofs::Writing::writing))]
fn push_range(out: &mut Vec<u8>, range: (i64, i64)) -> Result<(), AllocError>
    ensures { OnOk result (out.new.items ≡ out.old.items ++ range_words range) }
{
    push_end(out, range.0 as i128)?;
    push_end(out, range.1 as i128)
}

/// Writes the ranges of a box.
#[tactic(auto, using(crate::proofs::Writing::writing))]
pub(crate) fn push_ranges(out: &mut Vec<u8>, ranges: &[(i64, i64)]) -> Result<(), AllocError>
    ensures { OnOk result (out.new.items ≡ out.old.items ++ flat_map range_words ranges.now) }
{
    for range in ranges {
        push_range(out, *range)?;
    }
    Ok(())
}

/// Writes what tells that 0 is left out, where it stands inside the range.
fn push_zero(out: &mut Vec<u8>, cond: Cond) -> Result<(), AllocError>
    ensures { OnOk result (out.new.items ≡ out.old.items ++ zero_text (is_zero_left_out cond)) }
{
    let left_out = cond.zero_out() && cond.lo() < 0 && 0 < cond.hi();
    if left_out {
        out.extend_from_slice(b" not 0")?;
    }
    Ok(())
}

/// Writes the ends of a condition.
#[tactic(auto, using(crate::proofs::Writing::writing))]
fn push_ends(out: &mut Vec<u8>, lo: i64, hi: i64) -> Result<(), AllocError>
    ensures { OnOk result (out.new.items ≡ out.old.items ++ range_text lo hi) }
{
    push_end(out, lo as i128)?;
    out.extend_from_slice(b"..")?;
    push_signed(out, hi as i128)
}

/// Writes a condition.
#[tactic(auto, using(crate::proofs::Writing::writing))]
fn push_cond(out: &mut Vec<u8>, cond: Cond) -> Result<(), AllocError>
    ensures { OnOk result (out.new.items ≡ out.old.items ++ cond_text cond) }
{
    push_ends(out, cond.lo(), cond.hi())?;
    push_zero(out, cond)
}

/// Writes what a procedure may return.
#[tactic(auto, using(crate::proofs::Writing::writing))]
pub(crate) fn push_reach(out: &mut Vec<u8>, reach: Reach) -> Result<(), AllocError>
    ensures { OnOk result (out.new.items ≡ out.old.items ++ reach_text reach) }
{
    match reach {
        Reach::Bottom => out.extend_from_slice(b" bottom"),
        Reach::Value(cond) => push_cond(out, cond),
    }
}

/// Writes sites.
#[tactic(auto, using(crate::proofs::Writing::writing))]
pub(crate) fn push_sites(out: &mut Vec<u8>, sites: &[NamedSite]) -> Result<(), AllocError>
    ensures { OnOk result (out.new.items ≡ out.old.items ++ flat_map site_word sites.now) }
{
    for site in sites {
        push_word(out, site.proc.bytes())?;
        out.extend_from_slice(b"#")?;
        push_number(out, site.index as u64)?;
    }
    Ok(())
}
