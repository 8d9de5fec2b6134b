ghost use Rattle.std.specs.Prelude.{◌≡◌, OnOk, if◌then◌else◌};
ghost use Rattle.vmv_snapshot.specs.declared.code.Slot.{Slot as Variable};
ghost use Rattle.vmv_snapshot.specs.View.{stmt_of, block_of};
ghost use Rattle.vmv_back.specs.Assigned.{simple_assigns, assigns, block_assigns};
ghost use Rattle.vmv_demands.specs.declared.source.Source.TheVariants.{Unknown};
ghost use Rattle.vmv_demands.specs.Sources.{held};

use crate::slots::{Sources, put};
use crate::source::Source;
use std::alloc::AllocError;
use vmv_snapshot::{CodeStmt, Simple};

fn lose_simple(sources: &mut Sources, simple: &Simple) -> Result<(), AllocError>
    ensures { OnOk result ((x : Variable) → held sources.new x ≡ (if simple_assigns x.0 simple.now then Unknown else held sources.old x)) }
{
    match simple {
        Simple::Set { to, .. } | Simple::Arith { to, .. } | Simple::Ask { to, .. } => put(
            sources,
            *to,
            &Source::Unknown,
        ),
        Simple::Assert { .. } => Ok(()),
    }
}

/// Forgets what the variables hold that a statement assigns, itself or inside.
#[cycle(lost)]
pub(crate) fn lose(sources: &mut Sources, stmt: &CodeStmt) -> Result<(), AllocError>
    ensures { OnOk result ((x : Variable) → held sources.new x ≡ (if assigns x.0 (stmt_of stmt.now) then Unknown else held sources.old x)) }
{
    match stmt {
        CodeStmt::Plain(simple) => lose_simple(sources, simple),
        CodeStmt::Help { to, .. } => put(sources, *to, &Source::Unknown),
        CodeStmt::If { first, second, .. } => {
            lose_all(sources, first.as_slice())?;
            lose_all(sources, second.as_slice())
        }
        CodeStmt::Repeat(repeat) => {
            put(sources, repeat.index, &Source::Unknown)?;
            lose_all(sources, repeat.body.as_slice())
        }
    }
}

#[cycle(lost)]
fn lose_all(sources: &mut Sources, block: &[CodeStmt]) -> Result<(), AllocError>
    ensures { OnOk result ((x : Variable) → held sources.new x ≡ (if block_assigns x.0 (block_of block.now) then Unknown else held sources.old x)) }
{
    for stmt in block {
        lose(sources, stmt)?;
    }
    Ok(())
}
