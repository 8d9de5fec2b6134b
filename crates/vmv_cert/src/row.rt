ghost use Rattle.std.specs.Prelude.{◌≡◌, IfOk};

use sqlite_items::Items;
use std::alloc::{AllocError, Global};
use vmv_cond::Cond;
use vmv_tree::{Name, NamedSite};
use vmv_zone::Zone;

/// Abstract states, in order.
pub type Zones = Items<Zone>;

/// Sites, sorted by procedure in text order, then by number.
pub type Sites = Items<NamedSite>;

/// What a procedure may return.
#[derive(Clone, Copy)]
pub enum Reach {
    /// It doesn't return.
    Bottom,
    /// A word that the condition holds.
    Value(Cond),
}

/// What is told of a procedure that starts within an input.
#[derive(Drop)]
pub struct Row {
    /// The procedure.
    pub proc: Name,
    /// The state of its parameters.
    pub input: Zone,
    /// The state that is kept at each of its loops, in text order.
    pub keeps: Zones,
    /// What it may return.
    pub result: Reach,
    /// The sites, its own and those of its callees, that may fail.
    pub unproved: Sites,
}

impl Row {
    /// A second row that is the same. It fails where there is no memory.
    pub fn copy(&self, alloc: Global) -> Result<Row, AllocError>
        ensures { IfOk result (λ row. row ≡ self.now) }
    {
        Ok(Row {
            proc: self.proc,
            input: self.input,
            keeps: Items::from_slice(alloc, self.keeps.as_slice())?,
            result: self.result,
            unproved: Items::from_slice(alloc, self.unproved.as_slice())?,
        })
    }
}
