ghost use Rattle.std.specs.Prelude.{◌≡◌, map};
ghost use Rattle.vmv_tree.specs.View.{item_of, items_of};
ghost use Rattle.vmv_tree.specs.Run.{name_of};
ghost use Rattle.vmv_tree.specs.Limits.{outside_count, helper_count, entry_count};
ghost use Rattle.vmv_valid.specs.Names.{is_among};
ghost use Rattle.vmv_valid.specs.Walks.{item_counts};

use crate::callee::CAP;
use vmv_tree::{Item, ItemCounts, Name};

fn name_of(item: &Item) -> &Name
    ensures { result.now ≡ name_of (item_of item.now) }
{
    match item {
        Item::Outside { name, .. } => name,
        Item::Helper { name, .. } => name,
        Item::Entry { name, .. } => name,
    }
}

/// Whether one of these items has this name.
pub(crate) fn is_declared(items: &[Item], name: &Name) -> bool
    ensures { result ≡ is_among (map name_of (items_of items.now)) name.now }
{
    for item in items {
        if name.bytes() == name_of(item).bytes() {
            return true;
        }
    }
    false
}

/// How many outside names these declare.
pub(crate) fn outside_count(items: &[Item]) -> usize
    ensures { result ≡ outside_count (items_of items.now) }
{
    let mut count = 0;
    for item in items {
        if let Item::Outside { .. } = item {
            count += 1;
        }
    }
    count
}

/// How many helpers there are.
pub(crate) fn helper_count(items: &[Item]) -> usize
    ensures { result ≡ helper_count (items_of items.now) }
{
    let mut count = 0;
    for item in items {
        if let Item::Helper { .. } = item {
            count += 1;
        }
    }
    count
}

/// How many entries there are.
pub(crate) fn entry_count(items: &[Item]) -> usize
    ensures { result ≡ entry_count (items_of items.now) }
{
    let mut count = 0;
    for item in items {
        if let Item::Entry { .. } = item {
            count += 1;
        }
    }
    count
}

/// How many items of each kind there are.
pub(crate) fn item_counts(items: &[Item]) -> ItemCounts
    ensures { result ≡ item_counts (items_of items.now) }
{
    ItemCounts {
        outsides: (outside_count(items) as u64).min(CAP),
        helpers: (helper_count(items) as u64).min(CAP),
        entries: (entry_count(items) as u64).min(CAP),
    }
}
