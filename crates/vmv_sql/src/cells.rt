//! What stands in a row of an answer. What can't be read is a fault of the store.

ghost use Rattle.std.specs.Prelude.{◌≤◌, IfOk, IsUtf8};

use sqlite::Row;
use sqlite::types::ValueRef;
use std::alloc::Global;
use vmv_edge::Text;
use vmv_keeper::{KeepFault, Label};

/// The label at this place.
pub(crate) fn label_at(row: &Row, place: usize) -> Result<Label, KeepFault> {
    match row.get_ref(place) {
        Ok(ValueRef::Text(bytes)) => match Label::read(bytes) {
            Some(label) => Ok(label),
            None => Err(KeepFault::Failed),
        },
        _ => Err(KeepFault::Failed),
    }
}

/// The number of 32 bits at this place.
pub(crate) fn number_at(row: &Row, place: usize) -> Result<u32, KeepFault> {
    match row.get_ref(place) {
        Ok(ValueRef::Int(number)) => match u32::try_from(number) {
            Ok(number) => Ok(number),
            Err(_) => Err(KeepFault::Failed),
        },
        _ => Err(KeepFault::Failed),
    }
}

/// The number at this place, or nothing where no value stands there.
pub(crate) fn number_or_none_at(row: &Row, place: usize) -> Result<Option<u32>, KeepFault> {
    match row.get_ref(place) {
        Ok(ValueRef::Null) => Ok(None),
        _ => Ok(Some(number_at(row, place)?)),
    }
}

/// The number at this place, which is in this range.
pub(crate) fn number_within(
    row: &Row,
    place: usize,
    least: u32,
    most: u32,
) -> Result<u32, KeepFault>
    ensures { IfOk result (λ number. (least ≤ number) × (number ≤ most)) }
{
    let number = number_at(row, place)?;
    if number < least || most < number {
        return Err(KeepFault::Failed);
    }
    Ok(number)
}

/// The bytes at this place.
pub(crate) fn bytes_at(row: &Row, place: usize) -> Result<&[u8], KeepFault> {
    match row.get_ref(place) {
        Ok(ValueRef::Blob(bytes)) => Ok(bytes),
        _ => Err(KeepFault::Failed),
    }
}

/// The text at this place, which is UTF-8.
pub(crate) fn text_at(alloc: Global, row: &Row, place: usize) -> Result<Text, KeepFault>
    ensures { IfOk result IsUtf8 }
{
    let bytes = bytes_at(row, place)?;
    match std::str::from_utf8(bytes) {
        Ok(text) => Ok(Text::from_slice(alloc, text.as_bytes())?),
        Err(_) => Err(KeepFault::Failed),
    }
}
