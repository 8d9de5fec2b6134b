ghost use Rattle.vmv_zone.specs.Zone.{vars_of, IsNormal};
ghost use Rattle.vmv_zone.specs.Operand.{IsOperand};
ghost use Rattle.vmv_zone.specs.Read.{IsRangeOf};

use crate::operand::ZoneOperand;
use crate::zone::Zone;
use vmv_cond::Cond;

impl Zone {
    /// The values of the operand in the normal state: from its least to its greatest, and without 0 where it is a
    /// marked variable; the empty condition where the normal state is Bottom.
    pub fn range(&self, of: ZoneOperand) -> Cond
        requires { IsOperand (vars_of self.now) of }
        ensures { IsRangeOf self.now of result }
    {
        let mut before = *self;
        before.normalize();
        before.range_normed(of)
    }

    /// The values of the operand, where this state is normal.
    pub fn range_normed(&self, of: ZoneOperand) -> Cond
        requires normal { IsNormal self.now }
        requires operand { IsOperand (vars_of self.now) of }
        ensures { IsRangeOf self.now of result }
    {
        if self.bottom {
            return Cond::of(1, 0, true);
        }
        let ends = self.ends(of);
        let marked = self.nonzero(of);
        Cond::of(ends.lo, ends.hi, marked)
    }
}
