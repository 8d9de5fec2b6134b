//! Acts that are done.

ghost use Rattle.std.specs.Prelude.{◌≡◌, ◌++◌, ◌∷◌, [], IfOk, OnOk, OnErr};
ghost use Rattle.std.specs.Option.{option_map};
ghost use Rattle.vmv_keeper.specs.Outside.{Counts, OfTold};
ghost use Rattle.vmv_keeper.specs.Changes.{Fits, after};
ghost use Rattle.vmv_desk.specs.AtHand.{Agrees, IsOnProject, queues_after, submitted_number};

use crate::queue::Queue;
use crate::queues::{push_number, remove_number};
use std::alloc::Global;
use vmv_desk_rules::Effect;
use vmv_keeper::{Act, Change, KeepFault, Keeper, Label, Reply};

fn submitted_number(reply: &Reply) -> u32
    ensures { result ≡ submitted_number reply.now }
{
    match reply {
        Reply::Submitted { submission } => *submission,
        _ => 0,
    }
}

// Changes the queue of the project of an act that was done.
fn follow(queues: &mut Vec<Queue>, caller: &Label, act: &Act, reply: &Reply)
    requires { IsOnProject act.now }
    ensures { queues.new.items ≡ queues_after caller.now act.now reply.now queues.old.items }
{
    match act {
        Act::OpenProject { .. } | Act::AddMember { .. } => {}
        Act::Submit { owner, project, .. } => {
            push_number(queues, owner, project, submitted_number(reply));
        }
        Act::Withdraw {
            owner,
            project,
            submission,
        }
        | Act::Accept {
            owner,
            project,
            submission,
        }
        | Act::Waive {
            owner,
            project,
            submission,
        } => remove_number(queues, owner, project, *submission),
    }
}

// Commits an opened project, with a queue for it.
fn commit_opened<K: Keeper>(
    alloc: Global,
    keeper: &mut K,
    queues: &mut Vec<Queue>,
    name: &Label,
    change: &Change,
) -> Result<(), KeepFault>
    requires { OfTold (K.told keeper.old) (λ tables. Fits tables change.now) }
    ensures done { OnOk result (K.told keeper.new ≡ option_map (after change.now) (K.told keeper.old)) }
    ensures refused { OnErr result (K.told keeper.new ≡ K.told keeper.old) }
    ensures counted { Counts result (K.fault_count keeper.old) (K.fault_count keeper.new) }
    ensures queues { OnOk result (queues.new.items ≡ queues.old.items ++ record { owner = change.now.caller; name = name.now; pending = [] } ∷ []) }
    ensures same { OnErr result (queues.new.items ≡ queues.old.items) }
{
    let queue = Queue::make(alloc, &change.caller, name)?;
    queues.reserve(1)?;
    keeper.commit(alloc, change)?;
    queues.push_reserved(queue);
    Ok(())
}

// Commits a change, and changes the queues with it.
fn commit<K: Keeper>(
    alloc: Global,
    keeper: &mut K,
    queues: &mut Vec<Queue>,
    change: &Change,
) -> Result<(), KeepFault>
    requires { OfTold (K.told keeper.old) (λ tables. Fits tables change.now) }
    ensures done { OnOk result (K.told keeper.new ≡ option_map (after change.now) (K.told keeper.old)) }
    ensures refused { OnErr result (K.told keeper.new ≡ K.told keeper.old) }
    ensures counted { Counts result (K.fault_count keeper.old) (K.fault_count keeper.new) }
    ensures queues { OnOk result (queues.new.items ≡ queues_after change.now.caller change.now.act change.now.reply queues.old.items) }
    ensures same { OnErr result (queues.new.items ≡ queues.old.items) }
{
    match &change.act {
        Act::OpenProject { name, .. } => commit_opened(alloc, keeper, queues, name, change),
        act => {
            keeper.commit(alloc, change)?;
            follow(queues, &change.caller, act, &change.reply);
            Ok(())
        }
    }
}

/// Does an act, whose reply is kept for the caller under the id.
pub(crate) fn make<K: Keeper>(
    alloc: Global,
    keeper: &mut K,
    queues: &mut Vec<Queue>,
    caller: &Label,
    id: &Label,
    act: &Act,
    effect: Effect,
) -> Result<Reply, KeepFault>
    requires fits { OfTold (K.told keeper.old) (λ tables. Fits tables (record { caller = caller.now; id = id.now; act = act.now; reply = effect.reply; against = effect.against })) }
    requires agrees { Agrees (K.told keeper.old) queues.old.items }
    ensures done { OnOk result (K.told keeper.new ≡ option_map (after (record { caller = caller.now; id = id.now; act = act.now; reply = effect.reply; against = effect.against })) (K.told keeper.old)) }
    ensures reply { IfOk result (λ answer. answer ≡ effect.reply) }
    ensures refused { OnErr result (K.told keeper.new ≡ K.told keeper.old) }
    ensures counted { Counts result (K.fault_count keeper.old) (K.fault_count keeper.new) }
    ensures agrees { Agrees (K.told keeper.new) queues.new.items }
{
    let answer = effect.reply.copy(alloc)?;
    let change = Change {
        caller: *caller,
        id: *id,
        act: act.copy(alloc)?,
        reply: effect.reply,
        against: effect.against,
    };
    commit(alloc, keeper, queues, &change)?;
    Ok(answer)
}
