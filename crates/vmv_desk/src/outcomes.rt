//! What comes of an act.

ghost use Rattle.std.specs.Prelude.{◌≡◌, IfOk, Some};
ghost use Rattle.vmv_keeper.specs.Formed.{IsHeld};
ghost use Rattle.vmv_keeper.specs.Tables.{project_named, bench_of};
ghost use Rattle.vmv_keeper.specs.Outside.{Counts, IsAsIn};
ghost use Rattle.vmv_keeper.specs.Changes.{owner_of, name_of};
ghost use Rattle.vmv_desk_rules.specs.Causes.{outcome, outcome_of, outcome_on};
ghost use Rattle.vmv_desk_rules.specs.Replies.{Belongs};
ghost use Rattle.vmv_desk_rules.specs.Heard.{BySaid};
ghost use Rattle.vmv_desk.specs.AtHand.{Agrees, IsOnProject, OfHeld};

use crate::judging::{judge_cause, refused, vacuous};
use crate::queue::Queue;
use crate::queues::{owned_count, queue_of};
use crate::row_causes::{effect_on, is_member, row_cause};
use std::alloc::Global;
use vmv_desk_rules::{Effect, Outcome};
use vmv_edge::Text;
use vmv_keeper::{Act, Held, Judge, KeepFault, Keeper, Label, Reply};

// What comes of opening a project.
fn opening<K: Keeper, J: Judge>(
    alloc: Global,
    keeper: &mut K,
    queues: &[Queue],
    caller: &Label,
    name: &Label,
    text: &Text,
    judge: &J,
) -> Result<Outcome, KeepFault>
    requires { Agrees (K.told keeper.old) queues.now }
    ensures told { IfOk result (λ found. BySaid (J.inspected judge.now) (J.compared judge.now) (λ M. IsAsIn (λ tables. outcome_of M tables caller.now (Act.OpenProject name.now text.now)) (K.told keeper.old) found)) }
    ensures kept { K.told keeper.new ≡ K.told keeper.old }
    ensures counted { Counts result (K.fault_count keeper.old) (K.fault_count keeper.new) }
    ensures may { IfOk result (Belongs (Act.OpenProject name.now text.now)) }
{
    if keeper.load(alloc, caller, name)?.is_some() {
        return Ok(Outcome::NotDone {
            reply: Reply::AlreadyOpen,
        });
    }
    if owned_count(queues, caller) >= 64 {
        return Ok(Outcome::NotDone {
            reply: Reply::Full { which: 2 },
        });
    }
    let said = judge.inspect(alloc, text)?;
    if let Some(reply) = refused(said) {
        return Ok(Outcome::NotDone { reply });
    }
    if let Some(reply) = vacuous(said) {
        return Ok(Outcome::NotDone { reply });
    }
    Ok(Outcome::Done {
        effect: Effect {
            reply: Reply::Opened { version: 1 },
            against: 0,
        },
    })
}

fn not_found() -> Outcome
    ensures { result ≡ Outcome.NotDone Reply.NotFound }
{
    Outcome::NotDone {
        reply: Reply::NotFound,
    }
}

// What comes of an act on a project that is held.
fn acting_on_held<K: Keeper, J: Judge>(
    alloc: Global,
    keeper: &mut K,
    queue: &Queue,
    caller: &Label,
    act: &Act,
    held: &Held,
    judge: &J,
) -> Result<Outcome, KeepFault>
    requires held { IsHeld (owner_of caller.now act.now) held.now }
    requires opens { IsOnProject act.now }
    ensures told { IfOk result (λ found. BySaid (J.inspected judge.now) (J.compared judge.now) (λ M. OfHeld (K.told keeper.old) (owner_of caller.now act.now) (name_of act.now) held.now (λ p. queue.now ≡ bench_of p → found ≡ outcome_on M caller.now act.now (Some p)))) }
    ensures kept { K.told keeper.new ≡ K.told keeper.old }
    ensures counted { Counts result (K.fault_count keeper.old) (K.fault_count keeper.new) }
    ensures may { IfOk result (Belongs act.now) }
{
    if !is_member(held, caller) {
        return Ok(not_found());
    }
    if let Some(reply) = row_cause(caller, act, held, queue) {
        return Ok(Outcome::NotDone { reply });
    }
    if let Some(reply) = judge_cause(alloc, keeper, judge, act, held)? {
        return Ok(Outcome::NotDone { reply });
    }
    Ok(Outcome::Done {
        effect: effect_on(act, held),
    })
}

// What comes of an act on the project of this owner and name.
fn acting<K: Keeper, J: Judge>(
    alloc: Global,
    keeper: &mut K,
    queues: &[Queue],
    owner: &Label,
    name: &Label,
    caller: &Label,
    act: &Act,
    judge: &J,
) -> Result<Outcome, KeepFault>
    requires agrees { Agrees (K.told keeper.old) queues.now }
    requires owner { owner_of caller.now act.now ≡ owner.now }
    requires name { name_of act.now ≡ name.now }
    requires opens { IsOnProject act.now }
    ensures told { IfOk result (λ found. BySaid (J.inspected judge.now) (J.compared judge.now) (λ M. IsAsIn (λ tables. outcome_on M caller.now act.now (project_named tables owner.now name.now)) (K.told keeper.old) found)) }
    ensures kept { K.told keeper.new ≡ K.told keeper.old }
    ensures counted { Counts result (K.fault_count keeper.old) (K.fault_count keeper.new) }
    ensures may { IfOk result (Belongs act.now) }
{
    let Some(held) = keeper.load(alloc, owner, name)? else {
        return Ok(not_found());
    };
    let Some(queue) = queue_of(queues, owner, name) else {
        return Ok(not_found());
    };
    acting_on_held(alloc, keeper, queue, caller, act, &held, judge)
}

/// What comes of an act, whose id is new.
pub(crate) fn outcome<K: Keeper, J: Judge>(
    alloc: Global,
    keeper: &mut K,
    queues: &[Queue],
    caller: &Label,
    act: &Act,
    judge: &J,
) -> Result<Outcome, KeepFault>
    requires { Agrees (K.told keeper.old) queues.now }
    ensures told { IfOk result (λ found. BySaid (J.inspected judge.now) (J.compared judge.now) (λ M. IsAsIn (λ tables. outcome M tables caller.now act.now) (K.told keeper.old) found)) }
    ensures kept { K.told keeper.new ≡ K.told keeper.old }
    ensures counted { Counts result (K.fault_count keeper.old) (K.fault_count keeper.new) }
    ensures may { IfOk result (Belongs act.now) }
{
    if keeper.replies(alloc, caller)? >= 100_000 {
        return Ok(Outcome::NotDone {
            reply: Reply::Full { which: 1 },
        });
    }
    match act {
        Act::OpenProject { name, text } => opening(
            alloc, keeper, queues, caller, name, text, judge,
        ),
        Act::AddMember { owner, project, .. }
        | Act::Submit { owner, project, .. }
        | Act::Withdraw { owner, project, .. }
        | Act::Accept { owner, project, .. }
        | Act::Waive { owner, project, .. } => acting(
            alloc, keeper, queues, owner, project, caller, act, judge,
        ),
    }
}
