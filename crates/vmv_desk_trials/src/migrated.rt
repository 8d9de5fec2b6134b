use crate::small::put_same;
use std::alloc::Global;
use vmv_cases::{Sheet, number, word};
use vmv_desk::{OldRow, OldRows, migrate};
use vmv_desk_texts::{label, put_reply, put_versions, size};
use vmv_keeper::{Reply, VersionRow, VersionRows};

/// The version that a line `NUMBER KIND SUBMISSION CALLER` writes.
fn old_row(line: &[u8]) -> Option<OldRow> {
    Some(OldRow {
        number: u32::try_from(number(word(line, 0))?).ok()?,
        kind: u8::try_from(number(word(line, 1))?).ok()?,
        submission: u32::try_from(number(word(line, 2))?).ok()?,
        by: label(line, 3)?,
    })
}

/// Writes what one old version is migrated to.
fn put_migrated(alloc: Global, row: OldRow, sheet: &mut Sheet) {
    if row.number < 1 {
        sheet.refuse();
        return;
    }
    let Ok(rows) = OldRows::of(alloc, row) else {
        sheet.fall_short();
        return;
    };
    match migrate(alloc, &rows) {
        Ok(versions) => put_versions(versions.as_slice(), sheet),
        Err(_) => sheet.fall_short(),
    }
}

/// `? migrate | NUMBER KIND SUBMISSION CALLER`: what a version as a store kept it before is migrated to.
pub fn migrated(alloc: Global, line: &[u8], sheet: &mut Sheet) {
    match old_row(line) {
        Some(row) => put_migrated(alloc, row, sheet),
        None => sheet.refuse(),
    }
}

/// The version that a line `NUMBER KIND SUBMISSION CALLER AGAINST` writes.
fn version_row(line: &[u8]) -> Option<VersionRow> {
    let old = old_row(line)?;
    Some(VersionRow {
        number: old.number,
        kind: old.kind,
        submission: old.submission,
        by: old.by,
        against: size(word(line, 4))?,
    })
}

fn put_copy(alloc: Global, reply: &Reply, sheet: &mut Sheet) {
    match reply.copy(alloc) {
        Ok(copy) => {
            put_same(copy == *reply, sheet);
            put_reply(&copy, sheet);
        }
        Err(_) => sheet.fall_short(),
    }
}

/// `? history_copy | NUMBER KIND SUBMISSION CALLER AGAINST`: whether a copy of the reply that tells this version is the
/// same, and the copy.
pub fn history_copy(alloc: Global, line: &[u8], sheet: &mut Sheet) {
    let Some(row) = version_row(line) else {
        sheet.refuse();
        return;
    };
    match VersionRows::of(alloc, row) {
        Ok(versions) => put_copy(alloc, &Reply::History { versions }, sheet),
        Err(_) => sheet.fall_short(),
    }
}
