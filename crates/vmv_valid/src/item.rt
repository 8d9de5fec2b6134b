ghost use Rattle.std.specs.Prelude.{◌≡◌, ◌+◌, ◌<◌, ◌≤◌, ◌^◌, reverse, length, IfOk, OnOk};
ghost use Rattle.vmv_tree.specs.Tree.{outside, helper, entry};
ghost use Rattle.vmv_tree.specs.View.{body_of, item_of, items_of};
ghost use Rattle.vmv_tree.specs.Run.{turns_of};
ghost use Rattle.vmv_valid.specs.Measures.{callees_of, IsSmall};
ghost use Rattle.vmv_valid.specs.Walks.{Answers, walk_kind, walk_item};

use crate::callee::{CAP, Callee, capped_sum};
use crate::items::{entry_count, helper_count, is_declared, outside_count};
use crate::measure::{measured_all, turns_of};
use crate::numbers::distinct_numbers;
use crate::procedure::{
    walk_body, walk_entry_limits, walk_limits, walk_names, walk_params, walk_within,
};
use crate::stop::{Stop, found as stop_at};
use std::alloc::Global;
use vmv_tree::{Body, Defect, Item, ItemCounts, Name, Param};

/// Where an item stands in its program.
#[derive(Clone, Copy, Drop)]
pub(crate) struct Place<'a> {
    /// How many items of each kind the program has.
    pub counts: ItemCounts,
    /// Those above it, in text order.
    pub above: &'a [Item],
    /// What it may call, the nearest first.
    pub callees: &'a [Callee],
}

/// Walks on where fewer than 64 items of the kind stand above, of so many in the program.
pub(crate) fn walk_kind(at: u32, which: u8, found: u64, above: usize) -> Result<u32, Stop>
    ensures walked { result ≡ walk_kind at which found above }
    ensures next { IfOk result (λ next. next ≡ at) }
{
    if above == 64 {
        return Err(stop_at(
            at,
            Defect::Limit {
                which,
                found,
                most: 64,
            },
        ));
    }
    Ok(at)
}

#[tactic(auto, using(crate::proofs::Turned::turned))]
fn walk_outside(place: &Place<'_>, at: u32, name: &Name, arity: i64) -> Result<u32, Stop>
    requires { at + 1 < 2 ^ 32 }
    ensures walked { Answers (walk_item place.now.counts (reverse (items_of place.now.above.now)) at (outside name.now arity)) result }
    ensures next { IfOk result (λ next. (next ≤ at + 1) × (turns_of arity ≤ 16)) }
{
    if is_declared(place.above, name) {
        return Err(stop_at(at, Defect::Repeated));
    }
    let at = walk_kind(at, 1, place.counts.outsides, outside_count(place.above))?;
    let at = walk_within(at, 4, turns_of(arity).min(CAP), 16)?;
    Ok(at + 1)
}

#[tactic(auto, using(crate::proofs::Turned::turned))]
fn walk_helper(
    alloc: Global,
    place: &Place<'_>,
    at: u32,
    name: &Name,
    params: &[Name],
    body: &Body,
) -> Result<u32, Stop>
    requires callees { place.now.callees.now ≡ callees_of (reverse (items_of place.now.above.now)) }
    requires room { at + 700000 < 2 ^ 32 }
    ensures walked { Answers (walk_item place.now.counts (reverse (items_of place.now.above.now)) at (helper name.now params.now (body_of body.now))) result }
    ensures next { IfOk result (λ next. (next ≤ at + 700000) × (length params.now ≤ 16)) }
{
    if is_declared(place.above, name) {
        return Err(stop_at(at, Defect::Repeated));
    }
    let at = walk_kind(at, 2, place.counts.helpers, helper_count(place.above))?;
    let measures = measured_all(place.callees, body.block.as_slice());
    let names = capped_sum(params.len() as u64, body.vars.len() as u64);
    let at = walk_limits(at, names, &measures)?;
    let at = walk_within(at, 8, capped_sum(1, measures.deepest), 16)?;
    let mut declared = Vec::new(alloc);
    let at = walk_names(at + 1, &mut declared, params)?;
    walk_body(alloc, place.callees, declared, at, body)
}

#[tactic(auto, using(crate::proofs::Turned::turned))]
fn walk_entry(
    alloc: Global,
    place: &Place<'_>,
    at: u32,
    name: &Name,
    params: &[Param],
    body: &Body,
) -> Result<u32, Stop>
    requires callees { place.now.callees.now ≡ callees_of (reverse (items_of place.now.above.now)) }
    requires room { at + 700000 < 2 ^ 32 }
    ensures walked { Answers (walk_item place.now.counts (reverse (items_of place.now.above.now)) at (entry name.now params.now (body_of body.now))) result }
    ensures next { IfOk result (λ next. next ≤ at + 700000) }
{
    if is_declared(place.above, name) {
        return Err(stop_at(at, Defect::Repeated));
    }
    let at = walk_kind(at, 3, place.counts.entries, entry_count(place.above))?;
    let measures = measured_all(place.callees, body.block.as_slice());
    let names = capped_sum(params.len() as u64, body.vars.len() as u64);
    let at = walk_limits(at, names, &measures)?;
    let numbers = distinct_numbers(alloc, place.above, params, body)?;
    let at = walk_entry_limits(at, numbers, &measures)?;
    let mut declared = Vec::new(alloc);
    let at = walk_params(at + 1, &mut declared, params)?;
    walk_body(alloc, place.callees, declared, at, body)
}

/// Walks over an item, whose name's mention has this number.
pub(crate) fn walk_item(alloc: Global, place: &Place<'_>, at: u32, item: &Item) -> Result<u32, Stop>
    requires callees { place.now.callees.now ≡ callees_of (reverse (items_of place.now.above.now)) }
    requires room { at + 700000 < 2 ^ 32 }
    ensures walked { Answers (walk_item place.now.counts (reverse (items_of place.now.above.now)) at (item_of item.now)) result }
    ensures next { IfOk result (λ next. next ≤ at + 700000) }
    ensures small { OnOk result (IsSmall (item_of item.now)) }
{
    match item {
        Item::Outside { name, arity } => walk_outside(place, at, name, *arity),
        Item::Helper { name, params, body } => {
            walk_helper(alloc, place, at, name, params.as_slice(), body)
        }
        Item::Entry { name, params, body } => {
            walk_entry(alloc, place, at, name, params.as_slice(), body)
        }
    }
}
