ghost use Rattle.std.specs.Prelude.{◌≡◌, ◌≤◌, ◌<◌};
ghost use Rattle.vmv_zone.specs.Zone.{vars_of};
ghost use Rattle.vmv_zone.specs.Step.{Drops};

use crate::tables::drop_bounds;
use crate::zone::Zone;

impl Zone {
    /// Drops the variable `to`, and gives the last variable its name.
    pub(crate) fn drop_to(&mut self, to: u8)
        requires variable { 1 ≤ to }
        requires to { to < vars_of self.old }
        ensures { Drops to self.old self.new }
    {
        let last = self.vars;
        if self.bottom {
            self.empty(last - 1);
            return;
        }
        drop_bounds(&mut self.bounds, to as usize, last as usize);
        self.marks[to as usize] = self.marks[last as usize];
        self.marks[last as usize] = false;
        self.vars = last - 1;
    }
}
