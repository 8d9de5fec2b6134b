ghost use Rattle.std.specs.Prelude.{◌≡◌, IfOk};

use crate::row::Row;
use sqlite_items::Items;
use std::alloc::{AllocError, Global};

/// Rows, in order.
pub type Rows = Items<Row>;

/// A table.
#[derive(Drop)]
pub struct Table {
    pub rows: Rows,
}

impl Table {
    /// A second table that is the same. It fails where there is no memory.
    pub fn copy(&self, alloc: Global) -> Result<Table, AllocError>
        ensures { IfOk result (λ table. table ≡ self.now) }
    {
        let mut rows = Vec::with_capacity(alloc, self.rows.len())?;
        for row in self.rows.as_slice() {
            rows.push(row.copy(alloc)?)?;
        }
        Ok(Table {
            rows: Items::from_vec(rows),
        })
    }
}
