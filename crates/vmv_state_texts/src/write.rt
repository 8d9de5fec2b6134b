use crate::read::top_of;
use std::alloc::Global;
use vmv_cases::Sheet;
use vmv_zone::Zone;

/// Writes a blank and the bound on `i - j` where it is below top's. Answers whether it is.
fn put_bound(zone: &Zone, i: u8, j: u8, sheet: &mut Sheet) -> bool {
    if i > zone.vars() || j > zone.vars() {
        return false;
    }
    let bound = zone.bound(i, j);
    if bound >= top_of(i, j) {
        return false;
    }
    for number in [i as i128, j as i128, bound] {
        sheet.put(b" ");
        sheet.show(&number);
    }
    true
}

/// Writes the bounds on what a thing exceeds others by that are below top's. Answers how many they are, added to a count.
fn put_bounds_of(zone: &Zone, i: u8, count: u32, sheet: &mut Sheet) -> u32 {
    let mut count = count;
    for j in 0..=zone.vars() {
        if put_bound(zone, i, j, sheet) {
            count = count.saturating_add(1);
        }
    }
    count
}

/// Writes how many bounds are below top's, and these.
fn put_bounds(alloc: Global, zone: &Zone, sheet: &mut Sheet) {
    let mut bounds = Sheet::new(alloc);
    let mut count = 0;
    for i in 0..=zone.vars() {
        count = put_bounds_of(zone, i, count, &mut bounds);
    }
    sheet.put(b" bounds ");
    sheet.show(&count);
    sheet.put(bounds.bytes());
    if bounds.is_short() {
        sheet.fall_short();
    }
}

/// Writes a blank and the thing where it is marked. Answers whether it is.
fn put_mark(zone: &Zone, i: u8, sheet: &mut Sheet) -> bool {
    if i > zone.vars() || !zone.marked(i) {
        return false;
    }
    sheet.put(b" ");
    sheet.show(&i);
    true
}

/// Writes how many variables are marked, and these.
fn put_marks(alloc: Global, zone: &Zone, sheet: &mut Sheet) {
    let mut marks = Sheet::new(alloc);
    let mut count = 0u32;
    for i in 0..=zone.vars() {
        if put_mark(zone, i, &mut marks) {
            count = count.saturating_add(1);
        }
    }
    sheet.put(b" nonzero ");
    sheet.show(&count);
    sheet.put(marks.bytes());
    if marks.is_short() {
        sheet.fall_short();
    }
}

/// Writes a state, as it is.
pub fn put_state(alloc: Global, zone: &Zone, sheet: &mut Sheet) {
    if zone.is_bottom() {
        sheet.put(b"bottom ");
        sheet.show(&zone.vars());
        return;
    }
    sheet.put(b"vars ");
    sheet.show(&zone.vars());
    put_bounds(alloc, zone, sheet);
    put_marks(alloc, zone, sheet);
}
