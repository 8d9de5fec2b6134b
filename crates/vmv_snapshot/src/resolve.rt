ghost use Rattle.std.specs.Prelude.{◌≡◌, ◌++◌, ◌∷◌, [], map, IfOk, OnOk};
ghost use Rattle.std.specs.List.{Contains};
ghost use Rattle.vmv_tree.specs.Tree as tree;
ghost use Rattle.vmv_tree.specs.View.{body_of, item_of, program_of};
ghost use Rattle.vmv_tree.specs.Run.{block_sites};
ghost use Rattle.vmv_snapshot.specs.View.{code_of};
ghost use Rattle.vmv_snapshot.specs.Resolves.{slot_names, ResolvesBody};
ghost use Rattle.vmv_snapshot.specs.Resolvable.{IsReady};
ghost use Rattle.vmv_snapshot.specs.Tables.{scope_in, AreNumbered, IsNew, IsNext, IsProcOf, HasMore, Adds, AreTables};
ghost use Rattle.vmv_snapshot.specs.Procs.{any_word};
ghost use Rattle.vmv_tree.specs.Valid.{Valid};

use crate::code::Code;
use crate::resolver::Resolver;
use crate::slots::slot_names;
use crate::tables::{Proc, Tables};
use indexmap::IndexSet;
use std::alloc::{AllocError, Global};
use vmv_tree::{Body, Item, Name, Param, Params, Program};

/// A body resolved, and how many sites it has.
#[derive(Drop)]
pub(crate) struct Resolved {
    pub(crate) code: Code,
    pub(crate) sites: u32,
}

/// Resolves the body of a procedure with these parameters, behind what the tables have.
fn resolve_body(
    alloc: Global,
    tables: &Tables,
    params: &[Name],
    body: &Body,
) -> Result<Resolved, AllocError>
    requires numbered { AreNumbered tables.now }
    requires ready { IsReady (scope_in tables.now (slot_names params.now (body_of body.now))) (body_of body.now) }
    ensures code { IfOk result (λ r. ResolvesBody (scope_in tables.now (slot_names params.now (body_of body.now))) (body_of body.now) (code_of r.code)) }
    ensures sites { IfOk result (λ r. r.sites ≡ block_sites (body_of body.now).block) }
{
    let names = slot_names(alloc, params, body)?;
    let slots = names.as_slice();
    let resolver = Resolver { tables, slots };
    let mut sites = 0;
    let block = resolver.block(alloc, &mut sites, body.block.as_slice())?;
    let code = Code {
        vars: (slots.len() - 1) as u8,
        block,
        result: resolver.operand(&body.result),
    };
    Ok(Resolved { code, sites })
}

/// The parameters of a helper, each with the range of all words.
fn helper_params(alloc: Global, names: &[Name]) -> Result<Params, AllocError>
    ensures { IfOk result (λ params. params ≡ map any_word names.now) }
{
    let mut params = Params::new(alloc);
    for name in names {
        params.push(Param {
            name: *name,
            lo: i64::MIN,
            hi: i64::MAX,
        })?;
    }
    Ok(params)
}

fn param_names(alloc: Global, params: &[Param]) -> Result<Vec<Name>, AllocError>
    ensures { IfOk result (λ names. names.items ≡ map (λ p. p.name) params.now) }
{
    let mut names = Vec::new(alloc);
    for param in params {
        names.push(param.name)?;
    }
    Ok(names)
}

fn resolve_helper(
    alloc: Global,
    tables: &Tables,
    name: &Name,
    params: &[Name],
    body: &Body,
) -> Result<Proc, AllocError>
    requires { IsNew tables.now name.now params.now (body_of body.now) }
    ensures { IfOk result (IsProcOf tables.now (tree.helper name.now params.now (body_of body.now)) params.now (body_of body.now)) }
{
    let Resolved { code, sites } = resolve_body(alloc, tables, params, body)?;
    Ok(Proc {
        name: *name,
        entry: false,
        params: helper_params(alloc, params)?,
        code,
        sites,
    })
}

fn resolve_entry(
    alloc: Global,
    tables: &Tables,
    name: &Name,
    params: &[Param],
    body: &Body,
) -> Result<Proc, AllocError>
    requires { IsNew tables.now name.now (map (λ p. p.name) params.now) (body_of body.now) }
    ensures { IfOk result (IsProcOf tables.now (tree.entry name.now params.now (body_of body.now)) (map (λ p. p.name) params.now) (body_of body.now)) }
{
    let names = param_names(alloc, params)?;
    let Resolved { code, sites } = resolve_body(alloc, tables, names.as_slice(), body)?;
    Ok(Proc {
        name: *name,
        entry: true,
        params: Params::from_slice(alloc, params)?,
        code,
        sites,
    })
}

fn push_proc(tables: &mut Tables, proc: Proc) -> Result<(), AllocError>
    requires { Contains tables.old.names.keys proc.name → ⊥ }
    ensures { OnOk result (HasMore tables.old proc tables.new) }
{
    tables.names.insert(proc.name)?;
    tables.procs.push(proc)?;
    Ok(())
}

fn push_outside(tables: &mut Tables, name: &Name) -> Result<(), AllocError>
    requires { Contains tables.old.outsides.keys name.now → ⊥ }
    ensures outsides { OnOk result (tables.new.outsides.keys ≡ tables.old.outsides.keys ++ name.now ∷ []) }
    ensures names { OnOk result (tables.new.names.keys ≡ tables.old.names.keys) }
    ensures procs { OnOk result (tables.new.procs.items ≡ tables.old.procs.items) }
{
    tables.outsides.insert(*name)?;
    Ok(())
}

fn push_item(alloc: Global, tables: &mut Tables, item: &Item) -> Result<(), AllocError>
    requires { IsNext tables.old (item_of item.now) }
    ensures { OnOk result (Adds tables.old (item_of item.now) tables.new) }
{
    match item {
        Item::Outside { name, .. } => push_outside(tables, name),
        Item::Helper { name, params, body } => {
            let proc = resolve_helper(alloc, tables, name, params.as_slice(), body)?;
            push_proc(tables, proc)
        }
        Item::Entry { name, params, body } => {
            let proc = resolve_entry(alloc, tables, name, params.as_slice(), body)?;
            push_proc(tables, proc)
        }
    }
}

/// Resolves a valid program.
pub(crate) fn resolve(alloc: Global, program: &Program) -> Result<Tables, AllocError>
    requires { Valid (program_of program.now) }
    ensures { IfOk result (AreTables (program_of program.now)) }
{
    let mut tables = Tables {
        outsides: IndexSet::new(alloc),
        names: IndexSet::new(alloc),
        procs: Vec::new(alloc),
    };
    for item in program.items.as_slice() {
        push_item(alloc, &mut tables, item)?;
    }
    Ok(tables)
}
