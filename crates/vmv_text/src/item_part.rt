ghost use Rattle.std.specs.Prelude.{◌≡◌, ◌<◌, List, [], ◌∷◌, ◌++◌, length};
ghost use Rattle.vmv_tree.specs.Tree.{Block as tree_block, Body as tree_body, Item as tree_item, helper, entry};
ghost use Rattle.vmv_tree.specs.View.{item_of};
ghost use Rattle.vmv_tree.specs.Limits.{block_nesting};
ghost use Rattle.vmv_tree.specs.Deep.{HasCounts, IsSized};
ghost use Rattle.vmv_tree.specs.declared.name.Name.{Name as label};
ghost use Rattle.vmv_text.specs.Sizes.{HasSizes, IsBlockPart};
ghost use Rattle.vmv_text.specs.Parts.{IsItemPart, with_procedure};

use crate::part::BlockPart;
use crate::sizes::{Sizes, sum};
use vmv_tree::{
    Body, DeepProcedure, DeepProgram, Item, ItemCounts, Name, Names, Operand, Params, Program,
};

/// A body as it was read.
#[derive(Debug, Drop)]
pub(crate) struct BodyPart {
    pub vars: Names,
    pub block: BlockPart,
    pub result: Operand,
}

/// An item as it was read: its tree, or what is told of a procedure whose blocks stand too deep in one another.
#[derive(Debug, Drop)]
pub(crate) enum ItemPart {
    Tree(Item),
    Deep(DeepProcedure),
}

/// A program as it was read.
#[derive(Debug, Drop)]
pub enum Parsed {
    /// Its tree.
    Whole(Program),
    /// What is told of a program in which some blocks stand more than 8 deep in one another.
    Deep(DeepProgram),
}

/// What is told of a procedure with so many parameters and variables, and a block of these sizes.
fn deep(name: Name, is_entry: bool, params: usize, vars: usize, sizes: &Sizes) -> DeepProcedure
    ensures { (names : List label) (x : tree_body) → length names ≡ params → length x.vars ≡ vars → HasSizes sizes.now x.block → 8 < block_nesting x.block → IsSized result is_entry name names x }
{
    let names = sum(params as u64, vars as u64);
    DeepProcedure {
        name,
        is_entry,
        variables: sum(names, sum(sizes.loops, sizes.loops)),
        statements: sizes.statements,
        nesting: sizes.nesting,
    }
}

/// The helper with this body.
pub(crate) fn helper_part(name: Name, params: Names, body: BodyPart) -> ItemPart
    ensures { (b : tree_block) → IsBlockPart 9 body.block b → IsItemPart result (helper name params (record { vars = body.vars; block = b; output = body.result })) }
{
    let BodyPart {
        vars,
        block,
        result,
    } = body;
    match block {
        BlockPart::Tree(block) => ItemPart::Tree(Item::Helper {
            name,
            params,
            body: Body {
                vars,
                block,
                result,
            },
        }),
        BlockPart::Deep(sizes) => {
            ItemPart::Deep(deep(name, false, params.len(), vars.len(), &sizes))
        }
    }
}

/// The entry with this body.
pub(crate) fn entry_part(name: Name, params: Params, body: BodyPart) -> ItemPart
    ensures { (b : tree_block) → IsBlockPart 9 body.block b → IsItemPart result (entry name params (record { vars = body.vars; block = b; output = body.result })) }
{
    let BodyPart {
        vars,
        block,
        result,
    } = body;
    match block {
        BlockPart::Tree(block) => ItemPart::Tree(Item::Entry {
            name,
            params,
            body: Body {
                vars,
                block,
                result,
            },
        }),
        BlockPart::Deep(sizes) => {
            ItemPart::Deep(deep(name, true, params.len(), vars.len(), &sizes))
        }
    }
}

/// No items.
pub(crate) fn no_items() -> ItemCounts
    ensures { HasCounts result [] }
{
    ItemCounts {
        outsides: 0,
        helpers: 0,
        entries: 0,
    }
}

/// The counts with one more helper or entry.
fn with_procedure(counts: &ItemCounts, is_entry: bool) -> ItemCounts
    ensures { result ≡ with_procedure counts.now is_entry }
{
    if is_entry {
        return ItemCounts {
            outsides: counts.outsides,
            helpers: counts.helpers,
            entries: sum(counts.entries, 1),
        };
    }
    ItemCounts {
        outsides: counts.outsides,
        helpers: sum(counts.helpers, 1),
        entries: counts.entries,
    }
}

/// The counts with one more item, which has its tree.
fn with_tree(counts: &ItemCounts, item: &Item) -> ItemCounts
    ensures { (items : List tree_item) → HasCounts counts.now items → HasCounts result (items ++ item_of item.now ∷ []) }
{
    match item {
        Item::Outside { .. } => ItemCounts {
            outsides: sum(counts.outsides, 1),
            helpers: counts.helpers,
            entries: counts.entries,
        },
        Item::Helper { .. } => with_procedure(counts, false),
        Item::Entry { .. } => with_procedure(counts, true),
    }
}

/// The counts with one more item.
pub(crate) fn with_item(counts: &ItemCounts, part: &ItemPart) -> ItemCounts
    ensures { (items : List tree_item) (x : tree_item) → HasCounts counts.now items → IsItemPart part.now x → HasCounts result (items ++ x ∷ []) }
{
    match part {
        ItemPart::Tree(item) => with_tree(counts, item),
        ItemPart::Deep(deep) => with_procedure(counts, deep.is_entry),
    }
}
