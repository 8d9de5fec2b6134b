ghost use Rattle.std.specs.Prelude.{◌≡◌, ◌≤◌, ◌+◌, ◌++◌, codes, length, OnOk, IsFalse};
ghost use Rattle.std.specs.Fmt.{decimal};
ghost use Rattle.std.specs.List.{flat_map};
ghost use Rattle.vmv_zone.specs.Zone.{vars_of, NotBottom};
ghost use Rattle.vmv_proof_text.specs.States.{named_bound, bounds_of_thing, bounds_below_top, marked_variables};
ghost use Rattle.vmv_proof_text.specs.Text.{spaced, bound_words, bounds_text, variable_word, marks_text, told_state, state_text};

use crate::bounds::{count_bounds, count_marks, is_named};
use crate::words::{push_count, push_end, push_number};
use std::alloc::AllocError;
use vmv_zone::Zone;

/// Writes the bound on `i - j`, where it is below top's.
#[tactic(auto, using(crate::proofs::Writing::writing))]
fn push_bound(out: &mut Vec<u8>, zone: &Zone, i: u8, j: u8) -> Result<(), AllocError>
    requires i { i ≤ vars_of zone.now }
    requires j { j ≤ vars_of zone.now }
    ensures { OnOk result (out.new.items ≡ out.old.items ++ flat_map bound_words (named_bound zone.now i j)) }
{
    if !is_named(zone, i, j) {
        return Ok(());
    }
    push_count(out, i as u64)?;
    push_count(out, j as u64)?;
    push_end(out, zone.bound(i, j))
}

/// Writes the bounds on `i` minus another thing that are below top's.
#[tactic(auto, using(crate::proofs::Writing::writing))]
fn push_thing(out: &mut Vec<u8>, zone: &Zone, i: u8) -> Result<(), AllocError>
    requires { i ≤ vars_of zone.now }
    ensures { OnOk result (out.new.items ≡ out.old.items ++ flat_map bound_words (bounds_of_thing zone.now i (vars_of zone.now + 1))) }
{
    for j in 0..zone.vars() as usize + 1 {
        push_bound(out, zone, i, j as u8)?;
    }
    Ok(())
}

/// Writes the bounds that are below top's.
#[tactic(auto, using(crate::proofs::Writing::writing))]
fn push_bounds(out: &mut Vec<u8>, zone: &Zone) -> Result<(), AllocError>
    ensures { OnOk result (out.new.items ≡ out.old.items ++ flat_map bound_words (bounds_below_top zone.now)) }
{
    for i in 0..zone.vars() as usize + 1 {
        push_thing(out, zone, i as u8)?;
    }
    Ok(())
}

/// Writes the marked variables.
#[tactic(auto, using(crate::proofs::Writing::writing))]
fn push_marks(out: &mut Vec<u8>, zone: &Zone) -> Result<(), AllocError>
    ensures { OnOk result (out.new.items ≡ out.old.items ++ flat_map variable_word (marked_variables zone.now)) }
{
    for i in 0..zone.vars() {
        if zone.marked(i + 1) {
            push_count(out, i as u64 + 1)?;
        }
    }
    Ok(())
}

/// Writes a state that isn't Bottom.
#[tactic(auto, using(crate::proofs::Writing::writing))]
fn push_told(out: &mut Vec<u8>, zone: &Zone) -> Result<(), AllocError>
    ensures { OnOk result (out.new.items ≡ out.old.items ++ told_state (vars_of zone.now) (bounds_below_top zone.now) (marked_variables zone.now)) }
{
    out.extend_from_slice(b" vars ")?;
    push_number(out, zone.vars() as u64)?;
    out.extend_from_slice(b" bounds ")?;
    push_number(out, count_bounds(zone) as u64)?;
    push_bounds(out, zone)?;
    out.extend_from_slice(b" nonzero ")?;
    push_number(out, count_marks(zone) as u64)?;
    push_marks(out, zone)
}

/// Writes a state.
#[tactic(auto, using(crate::proofs::Writing::writing))]
pub(crate) fn push_state(out: &mut Vec<u8>, zone: &Zone) -> Result<(), AllocError>
    ensures { OnOk result (out.new.items ≡ out.old.items ++ state_text zone.now) }
{
    if zone.is_bottom() {
        out.extend_from_slice(b" bottom ")?;
        return push_number(out, zone.vars() as u64);
    }
    push_told(out, zone)
}
