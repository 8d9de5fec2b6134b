//! Acts as bytes.

ghost use Rattle.std.specs.Prelude.{◌≡◌, Some, IfOk, IfSome};
ghost use Rattle.vmv_keeper.specs.declared.act.Act.{Act};
ghost use Rattle.vmv_records.specs.Spelling.{act_bytes, IsAct};
ghost use Rattle.vmv_records.specs.Reading.{act_in, opening_in, adding_in, submitting_in, numbered_in, withdrawing_in, accepting_in, waiving_in};

use crate::fields::{label_at, label_in, named_at, number_in, put_label, put_named};
use std::alloc::{AllocError, Global};
use vmv_edge::Text;
use vmv_keeper::{Act, Label};

/// The bytes that are kept of an act. It fails where there is no memory.
pub fn write_act(alloc: Global, act: &Act) -> Result<Vec<u8>, AllocError>
    ensures { IfOk result (λ bytes. bytes.items ≡ act_bytes act.now) }
{
    let mut bytes = Vec::new(alloc);
    match act {
        Act::OpenProject { name, text } => {
            bytes.push(b'o')?;
            put_label(&mut bytes, name)?;
            bytes.extend_from_slice(text.bytes())?;
        }
        Act::AddMember {
            owner,
            project,
            member,
        } => {
            put_named(&mut bytes, b'm', owner, project, &[])?;
            put_label(&mut bytes, member)?;
        }
        Act::Submit {
            owner,
            project,
            text,
        } => put_named(&mut bytes, b's', owner, project, text.bytes())?,
        Act::Withdraw {
            owner,
            project,
            submission,
        } => put_named(&mut bytes, b'w', owner, project, &submission.to_be_bytes())?,
        Act::Accept {
            owner,
            project,
            submission,
        } => put_named(&mut bytes, b'a', owner, project, &submission.to_be_bytes())?,
        Act::Waive {
            owner,
            project,
            submission,
        } => put_named(&mut bytes, b'v', owner, project, &submission.to_be_bytes())?,
    }
    Ok(bytes)
}

#[tactic(auto, unfolding(crate::specs::Reading::opening_in))]
fn opening_in(alloc: Global, bytes: &[u8]) -> Result<Option<Act>, AllocError>
    ensures { IfOk result (λ found. found ≡ opening_in bytes.now) }
{
    match label_at(bytes) {
        Some((name, rest)) => {
            let text = Text::from_slice(alloc, rest)?;
            Ok(Some(Act::OpenProject { name, text }))
        }
        None => Ok(None),
    }
}

#[tactic(auto, unfolding(crate::specs::Reading::submitting_in))]
fn submitting_in(alloc: Global, bytes: &[u8]) -> Result<Option<Act>, AllocError>
    ensures { IfOk result (λ found. found ≡ submitting_in bytes.now) }
{
    match named_at(bytes) {
        Some((owner, project, rest)) => {
            let text = Text::from_slice(alloc, rest)?;
            Ok(Some(Act::Submit {
                owner,
                project,
                text,
            }))
        }
        None => Ok(None),
    }
}

#[tactic(auto, unfolding(crate::specs::Reading::adding_in))]
fn adding_in(bytes: &[u8]) -> Option<Act>
    ensures { result ≡ adding_in bytes.now }
{
    let Some((owner, project, rest)) = named_at(bytes) else {
        return None;
    };
    let member = label_in(rest)?;
    Some(Act::AddMember {
        owner,
        project,
        member,
    })
}

// The project and the submission that an act on a submission is about.
#[tactic(auto, unfolding(crate::specs::Reading::numbered_in))]
fn numbered_in(bytes: &[u8]) -> Option<(Label, Label, u32)>
    ensures { result ≡ numbered_in bytes.now }
{
    let Some((owner, project, rest)) = named_at(bytes) else {
        return None;
    };
    let submission = number_in(rest)?;
    Some((owner, project, submission))
}

#[tactic(auto, unfolding(crate::specs::Reading::withdrawing_in))]
fn withdrawing_in(bytes: &[u8]) -> Option<Act>
    ensures { result ≡ withdrawing_in bytes.now }
{
    let (owner, project, submission) = numbered_in(bytes)?;
    Some(Act::Withdraw {
        owner,
        project,
        submission,
    })
}

#[tactic(auto, unfolding(crate::specs::Reading::accepting_in))]
fn accepting_in(bytes: &[u8]) -> Option<Act>
    ensures { result ≡ accepting_in bytes.now }
{
    let (owner, project, submission) = numbered_in(bytes)?;
    Some(Act::Accept {
        owner,
        project,
        submission,
    })
}

#[tactic(auto, unfolding(crate::specs::Reading::waiving_in))]
fn waiving_in(bytes: &[u8]) -> Option<Act>
    ensures { result ≡ waiving_in bytes.now }
{
    let (owner, project, submission) = numbered_in(bytes)?;
    Some(Act::Waive {
        owner,
        project,
        submission,
    })
}

#[tactic(auto, unfolding(crate::specs::Reading::act_in))]
fn act_in(alloc: Global, bytes: &[u8]) -> Result<Option<Act>, AllocError>
    ensures { IfOk result (λ found. found ≡ act_in bytes.now) }
{
    match bytes {
        [b'o', rest @ ..] => opening_in(alloc, rest),
        [b'm', rest @ ..] => Ok(adding_in(rest)),
        [b's', rest @ ..] => submitting_in(alloc, rest),
        [b'w', rest @ ..] => Ok(withdrawing_in(rest)),
        [b'a', rest @ ..] => Ok(accepting_in(rest)),
        [b'v', rest @ ..] => Ok(waiving_in(rest)),
        _ => Ok(None),
    }
}

/// The act that these bytes are kept of, where they are of one. It fails where there is no memory.
pub fn read_act(alloc: Global, bytes: &[u8]) -> Result<Option<Act>, AllocError>
    ensures found { IfOk result (λ found. IfSome found (λ act. act_bytes act ≡ bytes.now)) }
    ensures only { (act : Act) → IsAct act → act_bytes act ≡ bytes.now → IfOk result (λ found. found ≡ Some act) }
{
    act_in(alloc, bytes)
}
