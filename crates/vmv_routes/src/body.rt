ghost use Rattle.std.specs.Prelude.{◌≡◌, IfOk, option_map};
ghost use Rattle.serde_json.specs.View.{view};
ghost use Rattle.vmv_routes.specs.Fields.{value_of, text_at, label_at, act_of};
ghost use Rattle.vmv_routes.specs.Asked.{change_of};

use crate::aim::Draft;
use crate::path::label_in;
use serde_json::Value;
use std::alloc::{AllocError, Global};
use vmv_edge::Text;
use vmv_keeper::{Act, Command, Label};

/// The value of a body, where it is JSON. It fails for want of memory alone.
fn value_of(alloc: Global, body: &[u8]) -> Result<Option<Value>, AllocError>
    ensures { IfOk result (λ value. option_map view value ≡ value_of body.now) }
{
    match Value::from_slice(alloc, body) {
        Ok(value) => Ok(Some(value)),
        Err(error) => if error.is_memory() {
            Err(AllocError)
        } else {
            Ok(None)
        },
    }
}

/// A field that is a string.
fn text_at<'a>(key: &str, value: &'a Value) -> Option<&'a str>
    ensures { option_map (λ text. text.now) result ≡ text_at key.now (view value.now) }
{
    value.get(key).and_then(Value::as_str)
}

/// A field that is a label.
fn label_at(key: &str, value: &Value) -> Option<Label>
    ensures { result ≡ label_at key.now (view value.now) }
{
    label_in(text_at(key, value)?.as_bytes())
}

/// A field that is a string, copied. It fails for want of memory alone.
fn copied_at(alloc: Global, key: &str, value: &Value) -> Result<Option<Text>, AllocError>
    ensures { IfOk result (λ text. text ≡ text_at key.now (view value.now)) }
{
    match text_at(key, value) {
        Some(text) => Ok(Some(Text::from_slice(alloc, text.as_bytes())?)),
        None => Ok(None),
    }
}

/// The opening of a project.
fn opening(alloc: Global, value: &Value) -> Result<Option<Act>, AllocError>
    ensures { IfOk result (λ act. act ≡ act_of Draft.Open (view value.now)) }
{
    let Some(name) = label_at("name", value) else {
        return Ok(None);
    };
    let Some(text) = copied_at(alloc, "text", value)? else {
        return Ok(None);
    };
    Ok(Some(Act::OpenProject { name, text }))
}

fn adding(owner: Label, project: Label, value: &Value) -> Option<Act>
    ensures { result ≡ act_of (Draft.AddMember owner project) (view value.now) }
{
    let member = label_at("member", value)?;
    Some(Act::AddMember {
        owner,
        project,
        member,
    })
}

fn submitting(
    alloc: Global,
    owner: Label,
    project: Label,
    value: &Value,
) -> Result<Option<Act>, AllocError>
    ensures { IfOk result (λ act. act ≡ act_of (Draft.Submit owner project) (view value.now)) }
{
    let Some(text) = copied_at(alloc, "text", value)? else {
        return Ok(None);
    };
    Ok(Some(Act::Submit {
        owner,
        project,
        text,
    }))
}

/// The act, where its fields are there. It fails for want of memory alone.
fn act_of(alloc: Global, draft: Draft, value: &Value) -> Result<Option<Act>, AllocError>
    ensures { IfOk result (λ act. act ≡ act_of draft (view value.now)) }
{
    match draft {
        Draft::Open => opening(alloc, value),
        Draft::AddMember { owner, project } => Ok(adding(owner, project, value)),
        Draft::Submit { owner, project } => submitting(alloc, owner, project, value),
        Draft::Whole(act) => Ok(Some(act)),
    }
}

/// The change that a body asks for, where the fields are there. It fails for want of memory alone.
pub(crate) fn change_of(
    alloc: Global,
    draft: Draft,
    caller: Label,
    body: &[u8],
) -> Result<Option<Command>, AllocError>
    ensures { IfOk result (λ command. command ≡ change_of draft caller body.now) }
{
    let Some(value) = value_of(alloc, body)? else {
        return Ok(None);
    };
    let Some(id) = label_at("id", &value) else {
        return Ok(None);
    };
    let Some(act) = act_of(alloc, draft, &value)? else {
        return Ok(None);
    };
    Ok(Some(Command::Change { caller, id, act }))
}
