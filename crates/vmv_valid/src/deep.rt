ghost use Rattle.std.specs.Prelude.{◌≡◌, List, [], reverse, IfOk, OnOk};
ghost use Rattle.vmv_tree.specs.View.{items_of};
ghost use Rattle.vmv_tree.specs.Tree.{Item as tree_item};
ghost use Rattle.vmv_tree.specs.Deep.{IsDeepProgram};
ghost use Rattle.vmv_tree.specs.Valid.{FirstDefect};
ghost use Rattle.vmv_valid.specs.Walks.{Answers, walk_items, walk_deep, walk_deep_kind};

use crate::first::walk_items;
use crate::item::walk_kind;
use crate::items::{entry_count, helper_count, is_declared};
use crate::procedure::walk_within;
use crate::stop::{FoundDefect, Stop, found};
use std::alloc::{AllocError, Global};
use vmv_tree::{DeepProcedure, DeepProgram, Defect, Item, ItemCounts};

/// Walks on where fewer than 64 procedures of this kind stand above.
#[tactic(auto, using(crate::proofs::Turned::turned))]
fn walk_deep_kind(counts: &ItemCounts, above: &[Item], at: u32, is_entry: bool) -> Result<u32, Stop>
    ensures { result ≡ walk_deep_kind counts.now (reverse (items_of above.now)) at is_entry }
{
    if is_entry {
        walk_kind(at, 3, counts.entries, entry_count(above))
    } else {
        walk_kind(at, 2, counts.helpers, helper_count(above))
    }
}

/// Walks over a procedure whose blocks stand too deep in one another, up to the first rule that it breaks.
#[tactic(auto, using(crate::proofs::Turned::turned))]
fn walk_deep(
    counts: &ItemCounts,
    above: &[Item],
    at: u32,
    deep: &DeepProcedure,
) -> Result<u32, Stop>
    ensures walked { result ≡ walk_deep counts.now (reverse (items_of above.now)) at deep.now }
    ensures stops { OnOk result ⊥ }
{
    if is_declared(above, &deep.name) {
        return Err(found(at, Defect::Repeated));
    }
    let at = walk_deep_kind(counts, above, at, deep.is_entry)?;
    let at = walk_within(at, 5, deep.variables, 16)?;
    let at = walk_within(at, 6, deep.statements, 2_000)?;
    Err(found(
        at,
        Defect::Limit {
            which: 7,
            found: deep.nesting,
            most: 8,
        },
    ))
}

/// Walks over a program up to its first defect.
fn walk_told(alloc: Global, told: &DeepProgram) -> Result<u32, Stop>
    ensures walked { (program : List tree_item) → IsDeepProgram told.now program → Answers (walk_items told.now.counts [] 0 program) result }
    ensures stops { OnOk result ⊥ }
{
    let above = told.above.as_slice();
    let at = walk_items(alloc, told.counts, above)?;
    walk_deep(&told.counts, above, at, &told.deep)
}

/// The first defect of a program in which some blocks stand more than 8 deep in one another: the same as `first_defect`
/// has of its tree. The only error is want of memory.
pub fn first_defect_of_deep(alloc: Global, told: &DeepProgram) -> Result<FoundDefect, AllocError>
    ensures { IfOk result (λ f. (program : List tree_item) → IsDeepProgram told.now program → FirstDefect program f.mention f.defect) }
{
    match walk_told(alloc, told) {
        Ok(_) => unreachable!(),
        Err(Stop::Found(found)) => Ok(found),
        Err(Stop::Memory) => Err(AllocError),
    }
}
