ghost use Rattle.std.specs.Prelude.{◌≡◌, ◌<◌, Some, length, slice_get};
ghost use Rattle.vmv_tree.specs.Tree as tree;
ghost use Rattle.vmv_tree.specs.View.{item_of, items_of};
ghost use Rattle.vmv_snapshot.specs.Procs.{procs};
ghost use Rattle.vmv_thresholds.specs.Collect.{is_proc, IsPlaceOf};

use vmv_tree::Item;

fn is_proc(item: &Item) -> bool
    ensures { result ≡ is_proc (item_of item.now) }
{
    match item {
        Item::Outside { .. } => false,
        Item::Helper { .. } => true,
        Item::Entry { .. } => true,
    }
}

/// The place of the procedure of this number among the items.
pub(crate) fn place_of(items: &[Item], number: u16) -> usize
    requires { number < length (procs (items_of items.now)) }
    ensures within { result < length items.now }
    ensures place { (item : tree.Item) → slice_get (procs (items_of items.now)) number ≡ Some item → IsPlaceOf (items_of items.now) number item result }
{
    let mut before = number;
    for (place, item) in items.iter().enumerate() {
        if is_proc(item) {
            if before == 0 {
                return place;
            }
            before -= 1;
        }
    }
    items.len()
}
