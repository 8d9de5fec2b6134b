ghost use Rattle.std.specs.Prelude.{◌≡◌, ◌<◌, ◌≤◌, ℕ, Bool, List, length, map, get_or};
ghost use Rattle.vmv_snapshot.specs.declared.code.ProcId.{ProcId};
ghost use Rattle.vmv_snapshot.specs.Code.{help};
ghost use Rattle.vmv_zone.specs.declared.zone.Zone.{Zone};
ghost use Rattle.vmv_zone.specs.Zone.{vars_of, IsNormal};
ghost use Rattle.vmv_step.specs.Zones.{zone_operand, AreInside, IsVariable};
ghost use Rattle.vmv_pass.specs.Moves.{given_of, lists, Moves};
ghost use Rattle.vmv_pass.specs.Told.{AreTold};

use crate::keep::take_input;
use crate::place::Place;
use vmv_snapshot::{CodeOperand, ProcId, Slot};
use vmv_step::pass_into;
use vmv_zone::{Zone, ZoneOperand, ZoneValue};

/// The operand with a slot as the variable of its number.
pub(crate) fn zone_operand(operand: CodeOperand) -> ZoneOperand
    ensures { result ≡ zone_operand operand }
{
    match operand {
        CodeOperand::Lit(word) => ZoneOperand::Lit(word),
        CodeOperand::Var(slot) => ZoneOperand::Var(slot.0),
    }
}

/// Passes over the call of a helper, which is the `c`-th: raises its input, which sets its flag, and goes on with what is
/// stored as its result. The arguments stand in the spare state.
pub(crate) fn pass_call(
    at: &Place<'_>,
    to: Slot,
    args: &[CodeOperand],
    c: usize,
    inputs: &mut [Zone],
    risen: &mut [bool],
    raised: &mut bool,
    passed: &mut Zone,
    zone: &mut Zone,
)
    requires normal { IsNormal zone.old }
    requires few { vars_of zone.old ≤ 16 }
    requires to { IsVariable (vars_of zone.old) to }
    requires count { length args.now ≤ 16 }
    requires inside { AreInside (vars_of zone.old) args.now }
    requires input { c < length inputs.old }
    requires size { (d : Zone) → vars_of (get_or inputs.old c d) ≡ length args.now }
    requires results { length at.now.results.now ≡ length inputs.old }
    ensures moves { (k : ℕ) (callee : ProcId) (keeps : List Zone) (flags : List Bool) (looped : Bool) (steps : ℕ) → Moves (given_of at.now) k c (help to callee args.now) zone.old (lists keeps inputs.old flags raised.old looped steps) zone.new (lists keeps inputs.new flags raised.new looped steps) }
    ensures normal { IsNormal zone.new }
    ensures vars { vars_of zone.new ≡ vars_of zone.old }
    ensures told { AreTold inputs.old risen.old inputs.new risen.new }
    ensures sizes { map vars_of inputs.new ≡ map vars_of inputs.old }
{
    if zone.is_bottom() {
        return;
    }
    pass_into(args, zone, passed);
    take_input(c, passed, inputs, risen, raised);
    let cond = at.results[c];
    zone.store(to.0, ZoneValue::Within(cond));
}
