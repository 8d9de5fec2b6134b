ghost use Rattle.std.specs.Prelude.{◌≡◌, ◌↔◌, IsTrue, IsNone, IfSome};
ghost use Rattle.vmv_tree.specs.Tree.{Item};
ghost use Rattle.vmv_snapshot.specs.declared.code.Code.{Code};
ghost use Rattle.vmv_snapshot.specs.Resolution.{IsResolution};
ghost use Rattle.vmv_zone.specs.declared.zone.Zone.{Zone};
ghost use Rattle.vmv_cert.specs.Walk.{goes, fails};
ghost use Rattle.vmv_cert.specs.Tables.{IsFormed, IsAbove, WalksBody, WalksRow};
ghost use Rattle.vmv_check.specs.Walker.{walk_of, way_at};

use crate::call::zone_operand;
use crate::form::is_formed;
use crate::walk::{Place, Walker};
use vmv_cert::Reach;
use vmv_cond::Cond;
use vmv_snapshot::ProcId;
use vmv_step::enter;

/// Whether both are true or both are false.
fn agree(one: bool, other: bool) -> bool
    ensures { IsTrue result ↔ (one ≡ other) }
{
    if one { other } else { !other }
}

/// Whether the two are one condition.
fn is_same(one: Cond, other: Cond) -> bool
    ensures { IsTrue result ↔ (one ≡ other) }
{
    if one.lo() != other.lo() {
        return false;
    }
    if one.hi() != other.hi() {
        return false;
    }
    agree(one.zero_out(), other.zero_out())
}

/// Whether what may be returned has all words of the range.
fn is_above(reach: Reach, range: Cond) -> bool
    ensures { IsTrue result ↔ IsAbove reach range }
{
    match reach {
        Reach::Bottom => range.is_empty(),
        Reach::Value(cond) => is_same(cond.meet(range), range),
    }
}

impl Walker<'_> {
    /// Walks through the procedure of the row, from entering it to its return.
    fn walk_body(&self, proc: ProcId) -> Result<(), u32>
        requires resolution { IsResolution (walk_of self.now).program }
        requires formed { (item : Item) × (code : Code) × IsFormed (walk_of self.now).program (walk_of self.now).row proc.0 item code }
        ensures { (z : Zone) × ((item : Item) (code : Code) → IsFormed (walk_of self.now).program (walk_of self.now).row proc.0 item code → WalksBody (walk_of self.now) item code (way_at result z)) }
    {
        let code = self.snapshot.code(proc);
        let mut zone = enter(self.snapshot, proc, &self.row.input);
        let mut place = Place { step: 1, keep: 0 };
        self.walk_block(code.block.as_slice(), &mut place, &mut zone)?;
        let range = zone.range_normed(zone_operand(code.result));
        if !is_above(self.row.result, range) {
            return Err(place.step);
        }
        Ok(())
    }

    /// The first step of the row that fails, and `None` where its walk holds.
    pub(crate) fn failing_step(&self) -> Option<u32>
        requires { IsResolution (walk_of self.now).program }
        ensures holds { IsNone result → (z : Zone) × WalksRow (walk_of self.now) (goes z) }
        ensures fails { IfSome result (λ step. WalksRow (walk_of self.now) (fails step)) }
    {
        let Some(proc) = self.snapshot.find_proc(&self.row.proc) else {
            return Some(0);
        };
        if !is_formed(self.snapshot, proc, self.row) {
            return Some(0);
        }
        match self.walk_body(proc) {
            Ok(_) => None,
            Err(step) => Some(step),
        }
    }
}
