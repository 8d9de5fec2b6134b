ghost use Rattle.std.specs.Prelude.{◌≡◌, ◌<◌, ◌≤◌, ◌++◌, ◌∷◌, [], pos, codes, map, IfOk, OnOk};
ghost use Rattle.std.specs.List.{range_with_len};
ghost use Rattle.vmv_tree.specs.Tree.{outside, helper, entry};
ghost use Rattle.vmv_tree.specs.View.{item_of, items_of, program_of};
ghost use Rattle.vmv_print.specs.Canonical.{canonical};
ghost use Rattle.vmv_sample.specs.Sample.{successor_body, sample_entry, sample_program};

use crate::blocks::{entry_body, only_name, successor_body};
use crate::names::{entry_name, name};
use std::alloc::{AllocError, Global};
use vmv_edge::Text;
use vmv_print::print_program;
use vmv_tree::{Item, Items, Param, Params, Program};

/// `outside a(0);`
fn outside_item() -> Item
    ensures { item_of result ≡ outside (codes "a") (pos 0) }
{
    Item::Outside {
        name: name(b"a"),
        arity: 0,
    }
}

/// The helper.
fn helper_item(alloc: Global) -> Result<Item, AllocError>
    ensures { IfOk result (λ item. item_of item ≡ helper (codes "h") (codes "x" ∷ []) successor_body) }
{
    let params = only_name(alloc, b"x")?;
    let body = successor_body(alloc)?;
    Ok(Item::Helper {
        name: name(b"h"),
        params,
        body,
    })
}

/// The entry of this number, which asks for an answer of at least that number and so much more.
fn entry_item(alloc: Global, number: u8, more: u8) -> Result<Item, AllocError>
    requires number { number < 64 }
    requires more { more ≤ 2 }
    ensures { IfOk result (λ item. item_of item ≡ sample_entry more number) }
{
    let name = entry_name(alloc, number)?;
    let mut params = Params::new(alloc);
    params.push(Param {
        name: crate::names::name(b"n"),
        lo: 0,
        hi: 20,
    })?;
    let body = entry_body(alloc, number as i64 + more as i64)?;
    Ok(Item::Entry { name, params, body })
}

/// Adds the entries, which ask for so much more.
fn push_entries(alloc: Global, items: &mut Items, more: u8) -> Result<(), AllocError>
    requires { more ≤ 2 }
    ensures { OnOk result (items_of items.new ≡ items_of items.old ++ map (sample_entry more) (range_with_len 0 64)) }
{
    for number in 0..64u8 {
        items.push(entry_item(alloc, number, more)?)?;
    }
    Ok(())
}

/// The program whose entries ask for so much more.
fn sample_program(alloc: Global, more: u8) -> Result<Program, AllocError>
    requires { more ≤ 2 }
    ensures { IfOk result (λ program. program_of program ≡ sample_program more) }
{
    let mut items = Items::new(alloc);
    items.push(outside_item())?;
    items.push(helper_item(alloc)?)?;
    push_entries(alloc, &mut items, more)?;
    Ok(Program { items })
}

/// The canonical text of a program of a sample, whose entries ask for so much more than those of the base, which ask for 0
/// more. It fails for want of memory alone.
pub fn sample_text(alloc: Global, more: u8) -> Result<Text, AllocError>
    requires { more ≤ 2 }
    ensures { IfOk result (λ text. text ≡ canonical (sample_program more)) }
{
    let program = sample_program(alloc, more)?;
    print_program(alloc, &program)
}
