//! Commands that change rows.

ghost use Rattle.std.specs.Prelude.{◌≡◌, ◌⊎◌, IfOk, OnErr, IsTrue};
ghost use Rattle.vmv_keeper.specs.Formed.{IsDone};
ghost use Rattle.vmv_desk_rules.specs.Replies.{may_refuse, IsReplyTo};
ghost use Rattle.vmv_keeper.specs.Outside.{Counts};
ghost use Rattle.vmv_desk_rules.specs.Heard.{BySaid};
ghost use Rattle.vmv_desk.specs.AtHand.{Agrees, IsStepped, IsKept};

use crate::committing::make;
use crate::outcomes::outcome;
use crate::queue::Queue;
use std::alloc::Global;
use vmv_desk_rules::Outcome;
use vmv_keeper::{Act, Command, Judge, KeepFault, Keeper, Kept, Label, Reply};

// The reply to an act whose id is kept.
fn repeated(kept: Kept, act: &Act) -> Reply
    requires { IsDone kept.act kept.reply }
    ensures kept { IsKept kept act.now result }
    ensures may { IsDone act.now result ⊎ IsTrue (may_refuse act.now result) }
{
    if kept.act.is_same(act) {
        kept.reply
    } else {
        Reply::IdReused
    }
}

/// Does an act under a caller's id, once.
pub(crate) fn change<K: Keeper, J: Judge>(
    alloc: Global,
    keeper: &mut K,
    queues: &mut Vec<Queue>,
    caller: &Label,
    id: &Label,
    act: &Act,
    judge: &J,
) -> Result<Reply, KeepFault>
    requires { Agrees (K.told keeper.old) queues.old.items }
    ensures agrees { Agrees (K.told keeper.new) queues.new.items }
    ensures stepped { IfOk result (λ reply. BySaid (J.inspected judge.now) (J.compared judge.now) (λ M. IsStepped M (K.told keeper.old) (Command.Change caller.now id.now act.now) (K.told keeper.new) reply)) }
    ensures refused { OnErr result (K.told keeper.new ≡ K.told keeper.old) }
    ensures counted { Counts result (K.fault_count keeper.old) (K.fault_count keeper.new) }
    ensures may { IfOk result (IsReplyTo (Command.Change caller.now id.now act.now)) }
{
    if let Some(kept) = keeper.reply_of(alloc, caller, id)? {
        return Ok(repeated(kept, act));
    }
    match outcome(alloc, keeper, queues, caller, act, judge)? {
        Outcome::NotDone { reply } => Ok(reply),
        Outcome::Done { effect } => make(alloc, keeper, queues, caller, id, act, effect),
    }
}
