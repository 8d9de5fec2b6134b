ghost use Rattle.std.specs.Prelude.{◌≡◌, ◌↔◌, [], reverse, IfOk, IfSome, IsNone};
ghost use Rattle.vmv_tree.specs.View.{items_of, program_of};
ghost use Rattle.vmv_tree.specs.Valid.{Valid, FirstDefect};
ghost use Rattle.vmv_valid.specs.Walks.{Answers, walk_items};

use crate::item::{Place, walk_item};
use crate::items::item_counts;
use crate::measure::add_called;
use crate::stop::{FoundDefect, Stop};
use std::alloc::{AllocError, Global};
use vmv_tree::{Item, ItemCounts, Program};

/// Walks over the first items of a program, which has so many of each kind.
pub(crate) fn walk_items(alloc: Global, counts: ItemCounts, items: &[Item]) -> Result<u32, Stop>
    ensures { Answers (walk_items counts [] 0 (items_of items.now)) result }
{
    let mut callees = Vec::new(alloc);
    let mut next = 0;
    for (i, item) in items.iter().enumerate() {
        let place = Place {
            counts,
            above: &items[..i],
            callees: callees.as_slice(),
        };
        next = walk_item(alloc, &place, next, item)?;
        add_called(&mut callees, item)?;
    }
    Ok(next)
}

/// The first defect of a program, or `None` exactly where the program is valid.
///
/// It is the one at the least mention, and at one mention the one with the lowest number: an unknown name, a repeated name,
/// a wrong arity, an assigned index, an empty range, and then the limits by their numbers. The only error is want of memory.
pub fn first_defect(alloc: Global, program: &Program) -> Result<Option<FoundDefect>, AllocError>
    ensures valid { IfOk result (λ found. IsNone found ↔ Valid (program_of program.now)) }
    ensures first { IfOk result (λ found. IfSome found (λ f. FirstDefect (program_of program.now) f.mention f.defect)) }
{
    let items = program.items.as_slice();
    match walk_items(alloc, item_counts(items), items) {
        Ok(_) => Ok(None),
        Err(Stop::Found(found)) => Ok(Some(found)),
        Err(Stop::Memory) => Err(AllocError),
    }
}
