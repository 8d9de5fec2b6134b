use crate::marks::mark_nonzero;
use crate::paths::{settle, settle_closed};
use crate::zone::Zone;

impl Zone {
    ghost use Rattle.vmv_zone.specs.Confine.{HasClosedBounds};
    ghost use Rattle.vmv_zone.specs.Zone.{IsNormOf};

    /// The greatest normal state below this one.
    ///
    /// Bounds are lowered by paths, in the order of Floyd's shortest paths, and by marks, until nothing changes
    /// (difference-bound matrices, after Miné).
    pub fn norm(mut self) -> Zone
        ensures { IsNormOf self result }
    {
        self.normalize();
        self
    }

    /// Lowers this state to its norm.
    pub fn normalize(&mut self)
        ensures { IsNormOf self.old self.new }
    {
        if self.bottom {
            return;
        }
        let vars = self.vars;
        if settle(&mut self.bounds, &self.marks, vars as usize) {
            mark_nonzero(&self.bounds, &mut self.marks, vars as usize);
        } else {
            self.empty(vars);
        }
    }

    /// Lowers this state, whose bounds no path lowers, to its norm.
    pub(crate) fn normalize_closed(&mut self)
        requires { HasClosedBounds self.old }
        ensures { IsNormOf self.old self.new }
    {
        if self.bottom {
            return;
        }
        let vars = self.vars;
        if settle_closed(&mut self.bounds, &self.marks, vars as usize) {
            mark_nonzero(&self.bounds, &mut self.marks, vars as usize);
        } else {
            self.empty(vars);
        }
    }
}
