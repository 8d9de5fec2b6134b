ghost use Rattle.std.specs.Prelude.{◌≡◌, ◌+◌, ◌*◌, ◌++◌, ◌<◌, ◌≤◌, ◌^◌, [], map, length, IfOk, OnOk};
ghost use Rattle.vmv_tree.specs.View.{block_of, body_of};
ghost use Rattle.vmv_tree.specs.Limits.{block_statements};
ghost use Rattle.vmv_valid.specs.Walks.{Answers, walk_names, walk_params, walk_body, walk_within, walk_limits, walk_entry_limits};

use crate::callee::{Callee, capped_product, capped_sum};
use crate::measure::Measures;
use crate::names::is_among;
use crate::statement::{Sight, walk_block};
use crate::stop::{Stop, found};
use std::alloc::Global;
use vmv_tree::{Body, Defect, Name, Param};

/// Walks over names that are declared behind these, and adds them.
pub(crate) fn walk_names(at: u32, declared: &mut Vec<Name>, names: &[Name]) -> Result<u32, Stop>
    requires { at + length names.now < 2 ^ 32 }
    ensures walked { Answers (walk_names at declared.old.items names.now) result }
    ensures declared { OnOk result (declared.new.items ≡ declared.old.items ++ names.now) }
    ensures next { IfOk result (λ next. next ≡ at + length names.now) }
{
    let mut next = at;
    for name in names {
        if is_among(declared.as_slice(), name) {
            return Err(found(next, Defect::Repeated));
        }
        declared.push(*name)?;
        next += 1;
    }
    Ok(next)
}

/// Walks over the parameters of an entry, and adds their names to these.
pub(crate) fn walk_params(at: u32, declared: &mut Vec<Name>, params: &[Param]) -> Result<u32, Stop>
    requires { at + length params.now < 2 ^ 32 }
    ensures walked { Answers (walk_params at declared.old.items params.now) result }
    ensures declared { OnOk result (declared.new.items ≡ declared.old.items ++ map (λ p. p.name) params.now) }
    ensures next { IfOk result (λ next. next ≡ at + length params.now) }
{
    let mut next = at;
    for param in params {
        if is_among(declared.as_slice(), &param.name) {
            return Err(found(next, Defect::Repeated));
        }
        if param.hi < param.lo {
            return Err(found(next, Defect::RangeEmpty));
        }
        declared.push(param.name)?;
        next += 1;
    }
    Ok(next)
}

/// Walks over what stands behind the parameters, which are these names.
pub(crate) fn walk_body(
    alloc: Global,
    callees: &[Callee],
    mut declared: Vec<Name>,
    at: u32,
    body: &Body,
) -> Result<u32, Stop>
    requires { at + length body.now.vars + 300 * block_statements (block_of body.now.block) + 1 < 2 ^ 32 }
    ensures walked { Answers (walk_body callees.now at declared.items (body_of body.now)) result }
    ensures next { IfOk result (λ next. next ≤ at + length body.now.vars + 300 * block_statements (block_of body.now.block) + 1) }
{
    let at = walk_names(at, &mut declared, body.vars.as_slice())?;
    let names = Vec::from_slice(alloc, declared.as_slice())?;
    let sight = Sight {
        callees,
        names: names.as_slice(),
        indexes: &[],
    };
    let at = walk_block(alloc, &sight, &mut declared, at, body.block.as_slice())?;
    sight.operand(at, &body.result)
}

/// Walks on where no more than allowed are found.
pub(crate) fn walk_within(at: u32, which: u8, found: u64, most: u64) -> Result<u32, Stop>
    ensures walked { result ≡ walk_within at which found most }
    ensures within { IfOk result (λ next. (next ≡ at) × (found ≤ most)) }
{
    if most < found {
        return Err(crate::stop::found(at, Defect::Limit { which, found, most }));
    }
    Ok(at)
}

/// The limits of every procedure. So many are its parameters and variables.
pub(crate) fn walk_limits(at: u32, names: u64, measures: &Measures) -> Result<u32, Stop>
    ensures walked { Answers (walk_limits at names measures.now) result }
    ensures within { IfOk result (λ next. (next ≡ at) × (names ≤ 16) × (measures.now.statements ≤ 2000)) }
{
    let variables = capped_sum(names, capped_product(2, measures.loops));
    let at = walk_within(at, 5, variables, 16)?;
    let at = walk_within(at, 6, measures.statements, 2_000)?;
    walk_within(at, 7, measures.nesting, 8)
}

/// The limits of an entry that has so many distinct numbers.
pub(crate) fn walk_entry_limits(at: u32, numbers: u64, measures: &Measures) -> Result<u32, Stop>
    ensures walked { Answers (walk_entry_limits at numbers measures.now) result }
    ensures within { IfOk result (λ next. next ≡ at) }
{
    let at = walk_within(at, 9, numbers, 256)?;
    let at = walk_within(at, 10, measures.paths, 1_024)?;
    let at = walk_within(at, 11, capped_sum(measures.steps, 1), 100_000)?;
    walk_within(at, 12, measures.asks, 10_000)
}
