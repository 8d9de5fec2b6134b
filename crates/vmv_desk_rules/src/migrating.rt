//! Rows of a store from before versions told what they were judged against.

ghost use Rattle.std.specs.Prelude.{◌≡◌, ◌≤◌, IfOk};
ghost use Rattle.std.specs.List.{AllByRecursion};
ghost use Rattle.vmv_desk_rules.specs.Migrating.{migrated_row, migrated};

use std::alloc::{AllocError, Global};
use vmv_keeper::{Label, Rows, VersionRow, VersionRows};

/// A version as a store kept it when each accepted version was judged against the one before it.
#[derive(Clone, Copy, PartialEq, Eq, Debug, Drop)]
pub struct OldRow {
    pub number: u32,
    pub kind: u8,
    pub submission: u32,
    pub by: Label,
}

pub type OldRows = Rows<OldRow>;

fn migrated(row: &OldRow) -> VersionRow
    requires { 1 ≤ row.now.number }
    ensures { result ≡ migrated_row row.now }
{
    let against = if row.kind == 2 { row.number - 1 } else { 0 };
    VersionRow {
        number: row.number,
        kind: row.kind,
        submission: row.submission,
        by: row.by,
        against,
    }
}

/// The versions with what they were judged against: an accepted one against the one before it, any other against
/// none. It fails where there is no memory.
pub fn migrate(alloc: Global, versions: &OldRows) -> Result<VersionRows, AllocError>
    requires { AllByRecursion (λ row. 1 ≤ row.number) versions.now }
    ensures { IfOk result (λ rows. rows ≡ migrated versions.now) }
{
    let mut rows = VersionRows::new(alloc);
    for row in versions.as_slice() {
        rows.push(migrated(row))?;
    }
    Ok(rows)
}
