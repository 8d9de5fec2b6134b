//! Commands that ask.

ghost use Rattle.std.specs.Prelude.{◌≡◌, IfOk, IfErr, IsTrue};
ghost use Rattle.vmv_desk_rules.specs.Replies.{is_report, is_base, is_pending, may_answer};
ghost use Rattle.vmv_keeper.specs.Tables.{project_named, bench_of};
ghost use Rattle.vmv_keeper.specs.Outside.{Counts, IsAsIn, OfTold};
ghost use Rattle.vmv_keeper.specs.Formed.{AreFormed, IsHeld};
ghost use Rattle.vmv_desk_rules.specs.Step.{answer_on, answer, report_of, told_of, asked_owner, asked_name};
ghost use Rattle.vmv_desk_rules.specs.Heard.{BySaid};
ghost use Rattle.vmv_desk.specs.AtHand.{Agrees, OfHeld};
ghost use Rattle.vmv_desk.specs.Asked.{row_in, rows_in};

use crate::queue::Queue;
use crate::queues::queue_of;
use crate::row_causes::{is_member, root_of};
use std::alloc::Global;
use vmv_edge::Text;
use vmv_keeper::{
    Compared, Held, Judge, KeepFault, Keeper, Label, PendingRow, PendingRows, Query, Reply,
};

// The report on a text against the version of this number, which is empty where a text doesn't parse.
fn report(alloc: Global, against: u32, said: Compared) -> Result<Reply, KeepFault>
    ensures reply { IfOk result (λ reply. reply ≡ report_of against said) }
    ensures may { IfOk result (λ reply. IsTrue (is_report reply)) }
    ensures memory { IfErr result (λ fault. fault ≡ KeepFault.Memory) }
{
    match said {
        Compared::Judged { verdict, json } => Ok(Reply::Report {
            verdict,
            json,
            against,
        }),
        Compared::Unreadable { .. } => Ok(Reply::Report {
            verdict: 0,
            json: Text::from_slice(alloc, b"{}")?,
            against,
        }),
    }
}

// The report on a submission, by its judge.
fn judged_report<J: Judge>(
    alloc: Global,
    judge: &J,
    against: u32,
    root: &Text,
    text: &Text,
) -> Result<Reply, KeepFault>
    ensures may { IfOk result (λ reply. IsTrue (is_report reply)) }
    ensures reply { IfOk result (λ reply. BySaid (J.inspected judge.now) (J.compared judge.now) (λ M. reply ≡ report_of against (M.compared root.now text.now))) }
    ensures memory { IfErr result (λ fault. fault ≡ KeepFault.Memory) }
{
    let said = judge.compare(alloc, root, text)?;
    report(alloc, against, said)
}

// The report on a submission that waits.
fn report_on<K: Keeper, J: Judge>(
    alloc: Global,
    keeper: &mut K,
    judge: &J,
    queue: &Queue,
    owner: &Label,
    project: &Label,
    submission: u32,
    held: &Held,
) -> Result<Reply, KeepFault>
    requires { IsHeld owner.now held.now }
    ensures told { IfOk result (λ reply. BySaid (J.inspected judge.now) (J.compared judge.now) (λ M. OfHeld (K.told keeper.old) owner.now project.now held.now (λ p. queue.now ≡ bench_of p → reply ≡ told_of M (Query.ReportOf owner.now project.now submission) p))) }
    ensures kept { K.told keeper.new ≡ K.told keeper.old }
    ensures counted { Counts result (K.fault_count keeper.old) (K.fault_count keeper.new) }
    ensures may { IfOk result (λ reply. IsTrue (is_report reply)) }
{
    if !queue.holds(submission) {
        return Ok(Reply::NotFound);
    }
    let Some(submitted) = keeper.submission(alloc, owner, project, submission)? else {
        return Ok(Reply::NotFound);
    };
    let against = root_of(held);
    let Some(root) = keeper.text(alloc, owner, project, against)? else {
        return Ok(Reply::NotFound);
    };
    judged_report(alloc, judge, against, &root, &submitted.text)
}

// The latest version.
fn base_of<K: Keeper>(
    alloc: Global,
    keeper: &mut K,
    owner: &Label,
    project: &Label,
    held: &Held,
) -> Result<Reply, KeepFault>
    requires { IsHeld owner.now held.now }
    ensures told { IfOk result (λ reply. (J : _) → OfHeld (K.told keeper.old) owner.now project.now held.now (λ p. reply ≡ told_of J (Query.Base owner.now project.now) p)) }
    ensures kept { K.told keeper.new ≡ K.told keeper.old }
    ensures counted { Counts result (K.fault_count keeper.old) (K.fault_count keeper.new) }
    ensures may { IfOk result (λ reply. IsTrue (is_base reply)) }
{
    let version = held.versions.len() as u32;
    let Some(text) = keeper.text(alloc, owner, project, version)? else {
        return Ok(Reply::NotFound);
    };
    Ok(Reply::Base { version, text })
}

// One submission that waits.
fn pending_row<K: Keeper>(
    alloc: Global,
    keeper: &mut K,
    owner: &Label,
    project: &Label,
    submission: u32,
) -> Result<Option<PendingRow>, KeepFault>
    ensures told { IfOk result (λ row. IsAsIn (row_in owner.now project.now submission) (K.told keeper.old) row) }
    ensures kept { K.told keeper.new ≡ K.told keeper.old }
    ensures counted { Counts result (K.fault_count keeper.old) (K.fault_count keeper.new) }
{
    match keeper.submission(alloc, owner, project, submission)? {
        Some(submitted) => Ok(Some(PendingRow {
            submission,
            by: submitted.by,
        })),
        None => Ok(None),
    }
}

// The submissions that wait, or none where the store doesn't give one of them.
fn pending_rows<K: Keeper>(
    alloc: Global,
    keeper: &mut K,
    owner: &Label,
    project: &Label,
    numbers: &[u32],
) -> Result<Option<PendingRows>, KeepFault>
    ensures told { IfOk result (IsAsIn (rows_in owner.now project.now numbers.now) (K.told keeper.old)) }
    ensures kept { K.told keeper.new ≡ K.told keeper.old }
    ensures counted { Counts result (K.fault_count keeper.old) (K.fault_count keeper.new) }
{
    let mut rows = PendingRows::new(alloc);
    for number in numbers {
        let Some(row) = pending_row(alloc, keeper, owner, project, *number)? else {
            return Ok(None);
        };
        rows.push(row)?;
    }
    Ok(Some(rows))
}

// The submissions that wait.
fn pending_of<K: Keeper>(
    alloc: Global,
    keeper: &mut K,
    queue: &Queue,
    owner: &Label,
    project: &Label,
) -> Result<Reply, KeepFault>
    ensures told { IfOk result (λ reply. (J : _) (held : _) → OfTold (K.told keeper.old) AreFormed → OfHeld (K.told keeper.old) owner.now project.now held (λ p. queue.now ≡ bench_of p → reply ≡ told_of J (Query.Pending owner.now project.now) p)) }
    ensures kept { K.told keeper.new ≡ K.told keeper.old }
    ensures counted { Counts result (K.fault_count keeper.old) (K.fault_count keeper.new) }
    ensures may { IfOk result (λ reply. IsTrue (is_pending reply)) }
{
    let numbers = queue.pending(alloc)?;
    match pending_rows(alloc, keeper, owner, project, &numbers)? {
        Some(rows) => Ok(Reply::Pending { rows }),
        None => Ok(Reply::NotFound),
    }
}

// What a member is told of a project that is held.
fn told_of<K: Keeper, J: Judge>(
    alloc: Global,
    keeper: &mut K,
    judge: &J,
    queue: &Queue,
    query: &Query,
    held: Held,
) -> Result<Reply, KeepFault>
    requires { IsHeld (asked_owner query.now) held }
    ensures told { IfOk result (λ reply. BySaid (J.inspected judge.now) (J.compared judge.now) (λ M. OfTold (K.told keeper.old) AreFormed → OfHeld (K.told keeper.old) (asked_owner query.now) (asked_name query.now) held (λ p. queue.now ≡ bench_of p → reply ≡ told_of M query.now p))) }
    ensures kept { K.told keeper.new ≡ K.told keeper.old }
    ensures counted { Counts result (K.fault_count keeper.old) (K.fault_count keeper.new) }
    ensures may { IfOk result (λ reply. IsTrue (may_answer query.now reply)) }
{
    match query {
        Query::ReportOf {
            owner,
            project,
            submission,
        } => report_on(
            alloc,
            keeper,
            judge,
            queue,
            owner,
            project,
            *submission,
            &held,
        ),
        Query::Base { owner, project } => base_of(alloc, keeper, owner, project, &held),
        Query::History { .. } => Ok(Reply::History {
            versions: held.versions,
        }),
        Query::Pending { owner, project } => pending_of(alloc, keeper, queue, owner, project),
    }
}

// The answer about the project of this owner and name.
fn ask_of<K: Keeper, J: Judge>(
    alloc: Global,
    keeper: &mut K,
    queues: &[Queue],
    owner: &Label,
    name: &Label,
    caller: &Label,
    query: &Query,
    judge: &J,
) -> Result<Reply, KeepFault>
    requires agrees { Agrees (K.told keeper.old) queues.now }
    requires owner { asked_owner query.now ≡ owner.now }
    requires name { asked_name query.now ≡ name.now }
    ensures told { IfOk result (λ reply. BySaid (J.inspected judge.now) (J.compared judge.now) (λ M. OfTold (K.told keeper.old) AreFormed → IsAsIn (λ tables. answer_on M caller.now query.now (project_named tables owner.now name.now)) (K.told keeper.old) reply)) }
    ensures kept { K.told keeper.new ≡ K.told keeper.old }
    ensures counted { Counts result (K.fault_count keeper.old) (K.fault_count keeper.new) }
    ensures may { IfOk result (λ reply. IsTrue (may_answer query.now reply)) }
{
    let Some(held) = keeper.load(alloc, owner, name)? else {
        return Ok(Reply::NotFound);
    };
    let Some(queue) = queue_of(queues, owner, name) else {
        return Ok(Reply::NotFound);
    };
    if !is_member(&held, caller) {
        return Ok(Reply::NotFound);
    }
    told_of(alloc, keeper, judge, queue, query, held)
}

/// The answer to a question.
pub(crate) fn ask<K: Keeper, J: Judge>(
    alloc: Global,
    keeper: &mut K,
    queues: &[Queue],
    caller: &Label,
    query: &Query,
    judge: &J,
) -> Result<Reply, KeepFault>
    requires { Agrees (K.told keeper.old) queues.now }
    ensures told { IfOk result (λ reply. BySaid (J.inspected judge.now) (J.compared judge.now) (λ M. OfTold (K.told keeper.old) AreFormed → IsAsIn (λ tables. answer M tables caller.now query.now) (K.told keeper.old) reply)) }
    ensures kept { K.told keeper.new ≡ K.told keeper.old }
    ensures counted { Counts result (K.fault_count keeper.old) (K.fault_count keeper.new) }
    ensures may { IfOk result (λ reply. IsTrue (may_answer query.now reply)) }
{
    match query {
        Query::ReportOf { owner, project, .. }
        | Query::Base { owner, project }
        | Query::History { owner, project }
        | Query::Pending { owner, project } => ask_of(
            alloc, keeper, queues, owner, project, caller, query, judge,
        ),
    }
}
