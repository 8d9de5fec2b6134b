//! An act that was done and its reply, as they are kept.

ghost use Rattle.std.specs.Prelude.{◌≡◌, ◌↔◌, Some, IfOk, IfSome, IsSomeAnd, IsTrue};
ghost use Rattle.vmv_keeper.specs.declared.act.Act.{Act};
ghost use Rattle.vmv_keeper.specs.declared.reply.Reply.{Reply};
ghost use Rattle.vmv_keeper.specs.Formed.{IsDone};
ghost use Rattle.vmv_records.specs.Spelling.{IsAct, IsReply};
ghost use Rattle.vmv_records.specs.Kept.{AreOf};

use crate::acts::read_act;
use crate::replies::read_reply;
use std::alloc::{AllocError, Global};
use vmv_keeper::{Act, Kept, Reply};

/// Whether a reply has the variant of an act that was done.
pub fn is_done(act: &Act, reply: &Reply) -> bool
    ensures { IsTrue result ↔ IsDone act.now reply.now }
{
    match (act, reply) {
        (Act::OpenProject { .. }, Reply::Opened { .. })
        | (Act::AddMember { .. }, Reply::Members { .. })
        | (Act::Submit { .. }, Reply::Submitted { .. })
        | (Act::Withdraw { .. }, Reply::Withdrawn { .. })
        | (Act::Accept { .. }, Reply::Accepted { .. })
        | (Act::Waive { .. }, Reply::Waived { .. }) => true,
        _ => false,
    }
}

/// The act that was done and its reply, of which these bytes are kept, where they are of an act and its reply. It
/// fails where there is no memory.
pub fn read_kept(alloc: Global, act: &[u8], answer: &[u8]) -> Result<Option<Kept>, AllocError>
    ensures found { IfOk result (λ found. IfSome found (λ kept. AreOf act.now answer.now kept.act kept.reply)) }
    ensures only { (a : Act) (r : Reply) → IsAct a → IsReply r → AreOf act.now answer.now a r → IfOk result (λ found. IsSomeAnd found (λ kept. (kept.act ≡ a) × (kept.reply ≡ r))) }
{
    let Some(reply) = read_reply(answer) else {
        return Ok(None);
    };
    let Some(act) = read_act(alloc, act)? else {
        return Ok(None);
    };
    if is_done(&act, &reply) {
        Ok(Some(Kept { act, reply }))
    } else {
        Ok(None)
    }
}
