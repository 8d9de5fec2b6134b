//! Labels and numbers as bytes.

ghost use Rattle.std.specs.Prelude.{◌≡◌, ◌∷◌, ◌++◌, OnOk};
ghost use Rattle.std.specs.Option.{option_map};
ghost use Rattle.vmv_records.specs.Spelling.{label_bytes, named_bytes};
ghost use Rattle.vmv_records.specs.Reading.{label_at, named_at, label_in, number_in};

use std::alloc::AllocError;
use vmv_keeper::Label;

/// The label at the front of the bytes, and the bytes behind it.
#[tactic(auto, unfolding(crate::specs::Reading::label_at))]
pub(crate) fn label_at(bytes: &[u8]) -> Option<(Label, &[u8])>
    ensures { option_map (λ x. (x.0, x.1.now)) result ≡ label_at bytes.now }
{
    match bytes {
        [] => None,
        [len, rest @ ..] => {
            let len = *len as usize;
            if rest.len() < len {
                return None;
            }
            let (front, behind) = rest.split_at(len);
            match Label::read(front) {
                Some(label) => Some((label, behind)),
                None => None,
            }
        }
    }
}

/// The labels of a project at the front of the bytes, its owner first, and the bytes behind them.
#[tactic(auto, unfolding(crate::specs::Reading::named_at))]
pub(crate) fn named_at(bytes: &[u8]) -> Option<(Label, Label, &[u8])>
    ensures { option_map (λ x. (x.0, x.1, x.2.now)) result ≡ named_at bytes.now }
{
    let Some((owner, rest)) = label_at(bytes) else {
        return None;
    };
    let Some((project, rest)) = label_at(rest) else {
        return None;
    };
    Some((owner, project, rest))
}

/// The label that all of the bytes are.
#[tactic(auto, unfolding(crate::specs::Reading::label_in))]
pub(crate) fn label_in(bytes: &[u8]) -> Option<Label>
    ensures { result ≡ label_in bytes.now }
{
    let Some((label, rest)) = label_at(bytes) else {
        return None;
    };
    if rest.is_empty() { Some(label) } else { None }
}

/// The number that all of the bytes are.
#[tactic(auto, unfolding(crate::specs::Reading::number_in))]
pub(crate) fn number_in(bytes: &[u8]) -> Option<u32>
    ensures { result ≡ number_in bytes.now }
{
    if bytes.len() != 4 {
        return None;
    }
    Some(u32::from_be_bytes([bytes[0], bytes[1], bytes[2], bytes[3]]))
}

/// Puts a label behind the bytes. It fails where there is no memory.
pub(crate) fn put_label(bytes: &mut Vec<u8>, label: &Label) -> Result<(), AllocError>
    ensures { OnOk result (bytes.new.items ≡ bytes.old.items ++ label_bytes label.now) }
{
    let name = label.bytes();
    bytes.push(name.len() as u8)?;
    bytes.extend_from_slice(name)?;
    Ok(())
}

/// Puts a letter behind the bytes, then the labels of a project, and then more bytes. It fails where there is
/// no memory.
pub(crate) fn put_named(
    bytes: &mut Vec<u8>,
    letter: u8,
    owner: &Label,
    project: &Label,
    rest: &[u8],
) -> Result<(), AllocError>
    ensures { OnOk result (bytes.new.items ≡ bytes.old.items ++ letter ∷ named_bytes owner.now project.now rest.now) }
{
    bytes.push(letter)?;
    put_label(bytes, owner)?;
    put_label(bytes, project)?;
    bytes.extend_from_slice(rest)?;
    Ok(())
}
