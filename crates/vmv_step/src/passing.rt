ghost use Rattle.std.specs.Prelude.{◌≤◌, length};
ghost use Rattle.vmv_zone.specs.Zone.{vars_of, IsNormal};
ghost use Rattle.vmv_zone.specs.Args.{IsArgsOf};
ghost use Rattle.vmv_step.specs.Zones.{zone_args, AreInside};

use crate::zones::zone_operand;
use vmv_snapshot::CodeOperand;
use vmv_zone::{Zone, ZoneOperand};

/// The state of the arguments of a call, over one variable for each.
///
/// There are at most 16 arguments, and those that are slots are variables of the state. The state needn't be normal.
pub fn pass(args: &[CodeOperand], zone: &Zone) -> Zone
    requires few { length args.now ≤ 16 }
    requires inside { AreInside (vars_of zone.now) args.now }
    ensures { IsArgsOf zone.now (zone_args args.now) result }
{
    let mut before = *zone;
    before.normalize();
    let mut passed = Zone::bottom(0);
    pass_into(args, &before, &mut passed);
    passed
}

/// Makes the other state that of the arguments of a call, where this one is normal.
pub fn pass_into(args: &[CodeOperand], zone: &Zone, into: &mut Zone)
    requires normal { IsNormal zone.now }
    requires few { length args.now ≤ 16 }
    requires inside { AreInside (vars_of zone.now) args.now }
    ensures { IsArgsOf zone.now (zone_args args.now) into.new }
{
    let mut operands = [ZoneOperand::Lit(0); 16];
    for (i, arg) in args.iter().enumerate() {
        operands[i] = zone_operand(*arg);
    }
    zone.copy_args_to(&operands[..args.len()], into);
}
