ghost use Rattle.std.specs.Prelude.{◌≡◌, IfOk};

use std::alloc::{AllocError, Global};
use vmv_cert::Table;
use vmv_snapshot::{ParamBox, ProcId};
use vmv_tree::Name;

/// What shows that a program is vacuous.
#[derive(Drop)]
pub enum ShownBy {
    /// Every answer of this name is excluded.
    EmptyName(Name),
    /// The entry doesn't return from the box, as the table shows.
    Doomed {
        /// The entry.
        entry: ProcId,
        /// A box of its parameters.
        within: ParamBox,
        /// The least table of the entry and the box.
        table: Table,
    },
}

impl ShownBy {
    /// A second one that is the same. It fails for want of memory alone.
    pub fn copy(&self, alloc: Global) -> Result<ShownBy, AllocError>
        ensures { IfOk result (λ shown. shown ≡ self.now) }
    {
        match self {
            ShownBy::EmptyName(name) => Ok(ShownBy::EmptyName(*name)),
            ShownBy::Doomed {
                entry,
                within,
                table,
            } => Ok(ShownBy::Doomed {
                entry: *entry,
                within: *within,
                table: table.copy(alloc)?,
            }),
        }
    }
}
