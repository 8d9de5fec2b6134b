ghost use Rattle.std.specs.Prelude.{◌≡◌, ◌<◌, ◌≤◌, ℕ, Bool, Some, List, true, length, map, get_or, slice_get, slice_set};
ghost use Rattle.std.specs.List.{All};
ghost use Rattle.vmv_zone.specs.declared.zone.Zone.{Zone};
ghost use Rattle.vmv_zone.specs.Zone.{vars_of, IsJoin, IsNormOf};
ghost use Rattle.vmv_zone.specs.Round.{IsRounded};
ghost use Rattle.vmv_step.specs.Agree.{HasSite};
ghost use Rattle.vmv_pass.specs.Upper.{AreScale};
ghost use Rattle.vmv_pass.specs.Moves.{given_of, lists, Keeps, Takes, flagged};
ghost use Rattle.vmv_pass.specs.Told.{AreTold};

use crate::place::Place;
use crate::steps::Steps;
use std::sync::ledger::Ledger;
use vmv_snapshot::Simple;
use vmv_zone::Zone;

/// Raises the state that is kept at the loop of this number so that it is above the one that is seen there. A raising is
/// one step.
pub(crate) fn raise_keep<L: Ledger>(
    at: &Place<'_>,
    k: usize,
    seen: &Zone,
    keeps: &mut [Zone],
    raised: &mut bool,
    looped: &mut bool,
    steps: &mut Steps<L>,
)
    requires inside { k < length keeps.old }
    requires over { All (λ z. vars_of z ≡ vars_of seen.now) keeps.old }
    requires scale { AreScale at.now.thresholds.now }
    ensures keeps { (inputs : List Zone) (flags : List Bool) (kept : Zone) → slice_get keeps.new k ≡ Some kept → Keeps (given_of at.now) k seen.now (lists keeps.old inputs flags raised.old looped.old steps.old) kept (lists keeps.new inputs flags raised.new looped.new steps.new) }
    ensures over { All (λ z. vars_of z ≡ vars_of seen.now) keeps.new }
{
    if seen.below(&keeps[k]) {
        return;
    }
    raise_state(&mut keeps[k], seen, at.thresholds);
    *raised = true;
    *looped = true;
    steps.tick();
}

/// Raises the state to the least threshold state above it and the other one.
fn raise_state(kept: &mut Zone, seen: &Zone, thresholds: &[i128])
    requires vars { vars_of kept.old ≡ vars_of seen.now }
    requires scale { AreScale thresholds.now }
    ensures raised { (both : Zone) × IsJoin kept.old seen.now both × IsRounded thresholds.now both kept.new }
    ensures vars { vars_of kept.new ≡ vars_of kept.old }
{
    kept.join_with(seen);
    kept.raise_to(thresholds);
}

/// Sets the flag of this number, where there is one.
fn set_flag(flags: &mut [bool], c: usize)
    ensures { flags.new ≡ slice_set flags.old c true }
{
    if c < flags.len() {
        flags[c] = true;
    }
}

/// Raises the input of the call of this number so that it is above these arguments, and sets the flag of the call where
/// that is a change.
pub(crate) fn take_input(
    c: usize,
    args: &Zone,
    inputs: &mut [Zone],
    risen: &mut [bool],
    raised: &mut bool,
)
    requires inside { c < length inputs.old }
    requires vars { (d : Zone) → vars_of (get_or inputs.old c d) ≡ vars_of args.now }
    ensures takes { (keeps : List Zone) (flags : List Bool) (looped : Bool) (steps : ℕ) → Takes c args.now (lists keeps inputs.old flags raised.old looped steps) (lists keeps inputs.new flags raised.new looped steps) }
    ensures told { AreTold inputs.old risen.old inputs.new risen.new }
    ensures sizes { map vars_of inputs.new ≡ map vars_of inputs.old }
{
    if args.below(&inputs[c]) {
        return;
    }
    raise_input(&mut inputs[c], args);
    set_flag(risen, c);
    *raised = true;
}

/// Raises the input to the norm of the least state above it and the arguments.
fn raise_input(input: &mut Zone, args: &Zone)
    requires vars { vars_of input.old ≡ vars_of args.now }
    ensures { (both : Zone) × IsJoin input.old args.now both × IsNormOf both input.new }
{
    input.join_with(args);
    input.normalize();
}

/// Stores whether the statement's site is unproved, where it has one.
pub(crate) fn flag_site(simple: &Simple, flag: bool, unproved: &mut [bool])
    requires { (n : ℕ) → HasSite simple.now n → (1 ≤ n) × (n ≤ length unproved.old) }
    ensures { unproved.new ≡ flagged simple.now flag unproved.old }
{
    match simple {
        Simple::Set { .. } | Simple::Ask { .. } => {}
        Simple::Arith { site, .. } => unproved[*site as usize - 1] = flag,
        Simple::Assert { site, .. } => unproved[*site as usize - 1] = flag,
    }
}
