//! Members and versions from rows.

ghost use Rattle.std.specs.List.{AllByRecursion};
ghost use Rattle.std.specs.Prelude.{◌≡◌, ◌≤◌, length, IfOk, IsTrue};
ghost use Rattle.vmv_keeper.specs.Formed.{FirstIs, AreNumbered, BeginOpened};

use crate::cells::{label_at, number_at, number_or_none_at, number_within};
use sqlite::Row;
use std::alloc::Global;
use vmv_desk_rules::{OldRow, OldRows};
use vmv_keeper::{KeepFault, Label, Labels, VersionRow, VersionRows};

// Whether the owner is the first of some members.
fn is_first(owner: &Label, members: &[Label]) -> bool
    ensures { IsTrue result → FirstIs owner.now members.now }
{
    match members {
        [first, ..] => first.is_same(owner),
        [] => false,
    }
}

// The member of a row, where its place is this one.
fn member_of(row: &Row, place: usize) -> Result<Label, KeepFault> {
    if number_at(row, 0)? as usize != place {
        return Err(KeepFault::Failed);
    }
    label_at(row, 1)
}

/// The members that the rows have, in their places from 1 on, the owner first: at most 64.
pub(crate) fn members_of(alloc: Global, rows: &[Row], owner: &Label) -> Result<Labels, KeepFault>
    ensures { IfOk result (λ members. FirstIs owner.now members × (length members ≤ 64)) }
{
    if 64 < rows.len() {
        return Err(KeepFault::Failed);
    }
    let mut members = Labels::new(alloc);
    for row in rows {
        let place = members.len() + 1;
        members.push(member_of(row, place)?)?;
    }
    if !is_first(owner, members.as_slice()) {
        return Err(KeepFault::Failed);
    }
    Ok(members)
}

// The kind of the version of this number: the first alone was opened.
fn kind_at(row: &Row, place: usize, number: u32) -> Result<u8, KeepFault>
    ensures { IfOk result (λ kind. number ≡ 1 → kind ≡ 1) }
{
    match number_at(row, place)? {
        1 if number == 1 => Ok(1),
        2 if number != 1 => Ok(2),
        3 if number != 1 => Ok(3),
        _ => Err(KeepFault::Failed),
    }
}

// The number of the submission that a version of this kind was made of. The first version was made of none: 0.
fn submission_at(row: &Row, place: usize, kind: u8) -> Result<u32, KeepFault> {
    if kind == 1 {
        number_within(row, place, 0, 0)
    } else {
        number_within(row, place, 1, 1_000_000)
    }
}

// The version of a row as a store of mark 1 kept it, where its number is this one.
fn old_row_of(row: &Row, number: u32) -> Result<OldRow, KeepFault>
    ensures { IfOk result (λ version. (version.number ≡ number) × (number ≡ 1 → version.kind ≡ 1)) }
{
    if number_at(row, 0)? != number {
        return Err(KeepFault::Failed);
    }
    let kind = kind_at(row, 1, number)?;
    Ok(OldRow {
        number,
        kind,
        submission: submission_at(row, 2, kind)?,
        by: label_at(row, 3)?,
    })
}

// What the version of a row was judged against: an earlier one where it was accepted, and else nothing.
fn against_of(row: &Row, version: &OldRow) -> Result<u32, KeepFault> {
    match number_or_none_at(row, 4)? {
        None if version.kind != 2 => Ok(0),
        Some(against) if version.kind == 2 && 1 <= against && against < version.number => Ok(
            against,
        ),
        _ => Err(KeepFault::Failed),
    }
}

// The version of a row, where its number is this one.
fn version_of(row: &Row, number: u32) -> Result<VersionRow, KeepFault>
    ensures { IfOk result (λ version. (version.number ≡ number) × (number ≡ 1 → version.kind ≡ 1)) }
{
    let version = old_row_of(row, number)?;
    let against = against_of(row, &version)?;
    Ok(VersionRow {
        number: version.number,
        kind: version.kind,
        submission: version.submission,
        by: version.by,
        against,
    })
}

/// The versions that the rows have, numbered from 1 on: 1 to 1,024, of which the first alone was opened.
pub(crate) fn versions_of(alloc: Global, rows: &[Row]) -> Result<VersionRows, KeepFault>
    ensures numbered { IfOk result (AreNumbered 1) }
    ensures opened { IfOk result BeginOpened }
    ensures few { IfOk result (λ versions. length versions ≤ 1024) }
{
    if rows.is_empty() || 1024 < rows.len() {
        return Err(KeepFault::Failed);
    }
    let mut versions = VersionRows::new(alloc);
    let mut number = 1;
    for row in rows {
        versions.push(version_of(row, number)?)?;
        number += 1;
    }
    Ok(versions)
}

/// The versions of a store of mark 1 that the rows have, numbered from 1 on.
pub(crate) fn old_rows_of(alloc: Global, rows: &[Row]) -> Result<OldRows, KeepFault>
    ensures { IfOk result (AllByRecursion (λ version. 1 ≤ version.number)) }
{
    if rows.is_empty() || 1024 < rows.len() {
        return Err(KeepFault::Failed);
    }
    let mut versions = OldRows::new(alloc);
    let mut number = 1;
    for row in rows {
        versions.push(old_row_of(row, number)?)?;
        number += 1;
    }
    Ok(versions)
}
