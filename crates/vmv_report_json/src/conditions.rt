ghost use Rattle.std.specs.Prelude.{◌≡◌, ◌++◌, IfOk, OnOk, map};
ghost use Rattle.std.specs.List.{flat_map};
ghost use Rattle.serde_json.specs.View.{view};
ghost use Rattle.vmv_report_json.specs.Json.{condition_data, told_condition, conditions_data};

use crate::strings::string_of;
use serde_json::{Value, json};
use std::alloc::{AllocError, Global};
use vmv_assumption::Assumption;
use vmv_cond::Cond;
use vmv_report::{is_whole, is_zero_left_out};
use vmv_tree::Name;

/// A name and its condition.
fn condition_value(alloc: Global, name: &Name, cond: Cond) -> Result<Value, AllocError>
    ensures { IfOk result (λ value. view value ≡ condition_data (name.now, cond)) }
{
    let name = string_of(alloc, name.bytes())?;
    let hi = cond.hi();
    let lo = cond.lo();
    let not_zero = is_zero_left_out(cond);
    json!(in alloc; {"hi": hi, "lo": lo, "name": name, "not_zero": not_zero})
}

/// Adds a name and its condition, where this is told.
#[tactic(auto, using(crate::proofs::Adding::adding))]
fn push_told(alloc: Global, list: &mut Vec<Value>, held: &(Name, Cond)) -> Result<(), AllocError>
    ensures { OnOk result (map view list.new.items ≡ map view list.old.items ++ told_condition held.now) }
{
    if !is_whole(held.1) {
        let value = condition_value(alloc, &held.0, held.1)?;
        list.push(value)?;
    }
    Ok(())
}

/// Adds the conditions that are told.
#[tactic(auto, using(crate::proofs::Adding::adding))]
fn push_all_told(
    alloc: Global,
    list: &mut Vec<Value>,
    held: &[(Name, Cond)],
) -> Result<(), AllocError>
    ensures { OnOk result (map view list.new.items ≡ map view list.old.items ++ flat_map told_condition held.now) }
{
    for h in held {
        push_told(alloc, list, h)?;
    }
    Ok(())
}

/// The conditions that are told, or null where there are none at all.
pub(crate) fn conditions_value(
    alloc: Global,
    conditions: &Option<Assumption>,
) -> Result<Value, AllocError>
    ensures { IfOk result (λ value. view value ≡ conditions_data conditions.now) }
{
    let Some(assumed) = conditions else {
        return Ok(Value::Null);
    };
    let mut list = Vec::new(alloc);
    push_all_told(alloc, &mut list, assumed.conds())?;
    Ok(Value::Array(list))
}
