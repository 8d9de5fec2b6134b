ghost use Rattle.std.specs.Prelude.{◌≡◌, ◌≢◌, ◌⊎◌, None, Some, Err, IfOk, IfErr, OnErr};
ghost use Rattle.vmv_edge.specs.Outside.{Rose};
ghost use Rattle.vmv_keeper.specs.Outside.{Counts, OfTold};
ghost use Rattle.vmv_keeper.specs.Formed.{AreFormed};
ghost use Rattle.vmv_keeper.specs.Tables.{no_rows};
ghost use Rattle.vmv_desk_rules.specs.Step.{IsFault};
ghost use Rattle.vmv_desk_rules.specs.Heard.{BySaid, HandledBy, WellBy, RanToBy};
ghost use Rattle.vmv_desk_rules.specs.Replies.{IsReplyTo};
ghost use Rattle.vmv_desk_rules.specs.Chain.{KeepsChains};
ghost use Rattle.vmv_desk.specs.AtHand.{Agrees, IsStepped};

use crate::asking::ask;
use crate::changing::change;
use crate::queue::Queue;
use crate::queues::queues_of;
use std::alloc::{AllocError, Global};
use std::marker::Model;
use vmv_keeper::{Command, Judge, KeepFault, Keeper, Reply};

/// Why a desk can't start.
#[derive(Clone, Copy, PartialEq, Eq, Debug, Drop)]
pub enum StartFault {
    /// The store failed, which it has counted.
    Failed,
    /// There was no memory.
    Memory,
}

/// A desk over a store of rows, which is its own. It keeps the numbers of the submissions that wait at hand.
///
/// A contract sees the store.
#[derive(Drop)]
pub struct Desk<K: Keeper> {
    keeper: K,
    queues: Vec<Queue>,
}

impl<K: Keeper> Model for Desk<K> {
    ghost use Rattle.vmv_desk.specs.AtHand.{Agrees};

    ghost Value = { K };

    ghost coded = { K.code };

    ghost view = { λ desk. desk.keeper };

    ghost invariant = { λ desk. Agrees (K.told desk.keeper) desk.queues.items };
}

// The queues of a store's projects.
fn queues_from<K: Keeper>(alloc: Global, keeper: &mut K) -> Result<Vec<Queue>, KeepFault>
    ensures agrees { IfOk result (λ queues. Agrees (K.told keeper.new) queues.items) }
    ensures kept { K.told keeper.new ≡ K.told keeper.old }
    ensures counted { Counts result (K.fault_count keeper.old) (K.fault_count keeper.new) }
{
    let benches = keeper.projects(alloc)?;
    Ok(queues_of(alloc, benches.as_slice())?)
}

fn reply_of(answer: Result<Reply, KeepFault>) -> Reply
    ensures ok { IfOk answer (λ reply. result ≡ reply) }
    ensures failed { answer ≡ Err KeepFault.Failed → result ≡ Reply.StoreFault }
    ensures memory { answer ≡ Err KeepFault.Memory → result ≡ Reply.Memory }
{
    match answer {
        Ok(reply) => reply,
        Err(KeepFault::Failed) => Reply::StoreFault,
        Err(KeepFault::Memory) => Reply::Memory,
    }
}

// The reply of a command, or the store's fault.
fn answered<K: Keeper, J: Judge>(
    alloc: Global,
    keeper: &mut K,
    queues: &mut Vec<Queue>,
    command: &Command,
    judge: &J,
) -> Result<Reply, KeepFault>
    requires { Agrees (K.told keeper.old) queues.old.items }
    ensures agrees { Agrees (K.told keeper.new) queues.new.items }
    ensures stepped { IfOk result (λ reply. BySaid (J.inspected judge.now) (J.compared judge.now) (λ M. OfTold (K.told keeper.old) AreFormed → IsStepped M (K.told keeper.old) command.now (K.told keeper.new) reply)) }
    ensures refused { OnErr result (K.told keeper.new ≡ K.told keeper.old) }
    ensures counted { Counts result (K.fault_count keeper.old) (K.fault_count keeper.new) }
    ensures may { IfOk result (IsReplyTo command.now) }
{
    match command {
        Command::Change { caller, id, act } => change(
            alloc, keeper, queues, caller, id, act, judge,
        ),
        Command::Ask { caller, query } => ask(alloc, keeper, queues, caller, query, judge),
    }
}

impl<K: Keeper> Desk<K> {
    /// A desk over a store, which is handed back where it failed or where there is no memory.
    pub fn start(alloc: Global, keeper: K) -> Result<Desk<K>, (StartFault, K)>
        ensures told { IfOk result (λ desk. K.told desk ≡ K.told keeper) }
        ensures refused { IfErr result (λ refusal. K.told refusal.1 ≡ K.told keeper) }
        ensures counted { IfOk result (λ desk. K.fault_count desk ≡ K.fault_count keeper) }
        ensures failed { IfErr result (λ refusal. refusal.0 ≡ StartFault.Failed → Rose (K.fault_count keeper) (K.fault_count refusal.1)) }
        ensures memory { IfErr result (λ refusal. refusal.0 ≡ StartFault.Memory → K.fault_count refusal.1 ≡ K.fault_count keeper) }
    {
        let mut keeper = keeper;
        match queues_from(alloc, &mut keeper) {
            Ok(queues) => Ok(Desk { keeper, queues }),
            Err(KeepFault::Failed) => Err((StartFault::Failed, keeper)),
            Err(KeepFault::Memory) => Err((StartFault::Memory, keeper)),
        }
    }

    /// Hands the store back as the last command left it.
    pub fn close(self) -> K
        ensures { result ≡ self }
    {
        let Desk { keeper, queues } = self;
        drop(queues);
        keeper
    }

    /// Does what a caller asks for, or says why not.
    pub fn handle<J: Judge>(&mut self, alloc: Global, command: &Command, judge: &J) -> Reply
        ensures handled { OfTold (K.told self.old) (λ tables. AreFormed tables → HandledBy (J.inspected judge.now) (J.compared judge.now) tables command.now (K.told self.new) result) }
        ensures well { OfTold (K.told self.old) (λ tables. WellBy (J.inspected judge.now) (J.compared judge.now) tables → OfTold (K.told self.new) (WellBy (J.inspected judge.now) (J.compared judge.now))) }
        ensures chains { OfTold (K.told self.old) (λ tables. WellBy (J.inspected judge.now) (J.compared judge.now) tables → OfTold (K.told self.new) (KeepsChains (J.keeps judge.now))) }
        ensures fault { result ≡ Reply.StoreFault → Rose (K.fault_count self.old) (K.fault_count self.new) }
        ensures counted { result ≢ Reply.StoreFault → K.fault_count self.new ≡ K.fault_count self.old }
        ensures untold { K.told self.old ≡ None → K.told self.new ≡ None }
        ensures reply { IsFault result ⊎ IsReplyTo command.now result }
    {
        reply_of(answered(alloc, &mut self.keeper, &mut self.queues, command, judge))
    }

    /// Handles commands one after another. It fails, with nothing done, where there is no memory for the list
    /// of the replies. Over a store that tells that it has no rows nothing else is asked.
    pub fn handle_all<J: Judge>(
        &mut self,
        alloc: Global,
        commands: &[Command],
        judge: &J,
    ) -> Result<Vec<Reply>, AllocError>
        ensures ran { IfOk result (λ replies. OfTold (K.told self.old) (λ tables. WellBy (J.inspected judge.now) (J.compared judge.now) tables → RanToBy (J.inspected judge.now) (J.compared judge.now) tables commands.now (K.told self.new) replies.items)) }
        ensures begun { IfOk result (λ replies. K.told self.old ≡ Some no_rows → RanToBy (J.inspected judge.now) (J.compared judge.now) no_rows commands.now (K.told self.new) replies.items) }
        ensures refused { OnErr result (self.new ≡ self.old) }
    {
        let mut replies = Vec::with_capacity(alloc, commands.len())?;
        for command in commands {
            let reply = self.handle(alloc, command, judge);
            replies.push_reserved(reply);
        }
        Ok(replies)
    }
}
