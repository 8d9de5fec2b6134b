//! The causes against an act that a judge finds.

ghost use Rattle.std.specs.Prelude.{◌≡◌, ◌∷◌, [], IfOk, IfErr, IfSome, IsSome, IsTrue};
ghost use Rattle.vmv_desk_rules.specs.Replies.{may_refuse, refuses_opening, refuses_submitting, refuses_accepting, refuses_waiving};
ghost use Rattle.vmv_keeper.specs.Tables.{waiting_as};
ghost use Rattle.vmv_keeper.specs.Outside.{Counts};
ghost use Rattle.vmv_keeper.specs.Formed.{IsHeld};
ghost use Rattle.vmv_keeper.specs.Changes.{owner_of, name_of, waiting_text};
ghost use Rattle.vmv_desk_rules.specs.Causes.{if_refused, if_vacuous, if_not_correct, root_text, judge_causes};
ghost use Rattle.vmv_desk_rules.specs.Heard.{BySaid};
ghost use Rattle.vmv_desk.specs.AtHand.{first_cause, OfHeld, Waits};

use crate::row_causes::root_of;
use std::alloc::Global;
use vmv_edge::Text;
use vmv_keeper::{Act, Compared, Held, Inspected, Judge, KeepFault, Keeper, Label, Reply};

/// The cause that a text doesn't parse.
pub(crate) fn refused(said: Inspected) -> Option<Reply>
    ensures may { IfSome result (λ r. IsTrue (refuses_opening r) × IsTrue (refuses_submitting r)) }
    ensures cause { result ≡ if_refused said }
{
    match said {
        Inspected::Refused {
            number,
            line,
            column,
        } => Some(Reply::TextRefused {
            number,
            line,
            column,
        }),
        _ => None,
    }
}

/// The cause that a text is vacuous.
pub(crate) fn vacuous(said: Inspected) -> Option<Reply>
    ensures may { IfSome result (λ r. IsTrue (refuses_opening r) × IsTrue (refuses_accepting r) × IsTrue (refuses_waiving r)) }
    ensures cause { result ≡ if_vacuous said }
{
    match said {
        Inspected::Vacuous => Some(Reply::VacuousText),
        _ => None,
    }
}

/// The cause that a verdict isn't 1.
fn not_correct(said: &Compared) -> Option<Reply>
    ensures may { IfSome result (λ r. IsTrue (refuses_accepting r)) }
    ensures cause { result ≡ if_not_correct said.now }
{
    let verdict = match said {
        Compared::Judged { verdict, .. } => *verdict,
        Compared::Unreadable { .. } => 0,
    };
    if verdict == 1 {
        return None;
    }
    Some(Reply::NotCorrect { verdict })
}

// The causes against a text that is to be a version of another's chain.
fn compared_cause<J: Judge>(
    alloc: Global,
    judge: &J,
    root: &Text,
    text: &Text,
) -> Result<Option<Reply>, KeepFault>
    ensures cause { IfOk result (λ cause. BySaid (J.inspected judge.now) (J.compared judge.now) (λ M. cause ≡ first_cause (if_not_correct (M.compared root.now text.now) ∷ if_vacuous (M.inspected text.now) ∷ []))) }
    ensures may { IfOk result (λ cause. IfSome cause (λ r. IsTrue (refuses_accepting r))) }
    ensures memory { IfErr result (λ fault. fault ≡ KeepFault.Memory) }
{
    if let Some(reply) = not_correct(&judge.compare(alloc, root, text)?) {
        return Ok(Some(reply));
    }
    Ok(vacuous(judge.inspect(alloc, text)?))
}

// The causes against a submission that is to be accepted.
fn accepting_cause<K: Keeper, J: Judge>(
    alloc: Global,
    keeper: &mut K,
    judge: &J,
    owner: &Label,
    project: &Label,
    submission: u32,
    held: &Held,
) -> Result<Option<Reply>, KeepFault>
    requires { IsHeld owner.now held.now }
    ensures told { IfOk result (λ cause. BySaid (J.inspected judge.now) (J.compared judge.now) (λ M. OfHeld (K.told keeper.old) owner.now project.now held.now (λ p. IsSome (waiting_as submission p) → cause ≡ first_cause (if_not_correct (M.compared (root_text p) (waiting_text submission p)) ∷ if_vacuous (M.inspected (waiting_text submission p)) ∷ [])))) }
    ensures kept { K.told keeper.new ≡ K.told keeper.old }
    ensures counted { Counts result (K.fault_count keeper.old) (K.fault_count keeper.new) }
    ensures may { IfOk result (λ cause. IfSome cause (λ r. IsTrue (refuses_accepting r))) }
{
    let Some(submitted) = keeper.submission(alloc, owner, project, submission)? else {
        return Ok(Some(Reply::NotFound));
    };
    let against = root_of(held);
    let Some(root) = keeper.text(alloc, owner, project, against)? else {
        return Ok(Some(Reply::NotFound));
    };
    compared_cause(alloc, judge, &root, &submitted.text)
}

// The causes against a submission that is to be waived.
fn waiving_cause<K: Keeper, J: Judge>(
    alloc: Global,
    keeper: &mut K,
    judge: &J,
    owner: &Label,
    project: &Label,
    submission: u32,
) -> Result<Option<Reply>, KeepFault>
    ensures told { IfOk result (λ cause. BySaid (J.inspected judge.now) (J.compared judge.now) (λ M. (held : _) → OfHeld (K.told keeper.old) owner.now project.now held (λ p. IsSome (waiting_as submission p) → cause ≡ first_cause (if_vacuous (M.inspected (waiting_text submission p)) ∷ [])))) }
    ensures kept { K.told keeper.new ≡ K.told keeper.old }
    ensures counted { Counts result (K.fault_count keeper.old) (K.fault_count keeper.new) }
    ensures may { IfOk result (λ cause. IfSome cause (λ r. IsTrue (refuses_waiving r))) }
{
    let Some(submitted) = keeper.submission(alloc, owner, project, submission)? else {
        return Ok(Some(Reply::NotFound));
    };
    Ok(vacuous(judge.inspect(alloc, &submitted.text)?))
}

/// The first cause against an act that a judge finds.
pub(crate) fn judge_cause<K: Keeper, J: Judge>(
    alloc: Global,
    keeper: &mut K,
    judge: &J,
    act: &Act,
    held: &Held,
) -> Result<Option<Reply>, KeepFault>
    requires { (caller : _) → IsHeld (owner_of caller act.now) held.now }
    ensures told { IfOk result (λ cause. BySaid (J.inspected judge.now) (J.compared judge.now) (λ M. (caller : _) → OfHeld (K.told keeper.old) (owner_of caller act.now) (name_of act.now) held.now (λ p. Waits act.now p → cause ≡ first_cause (judge_causes M act.now p)))) }
    ensures kept { K.told keeper.new ≡ K.told keeper.old }
    ensures counted { Counts result (K.fault_count keeper.old) (K.fault_count keeper.new) }
    ensures may { IfOk result (λ cause. IfSome cause (λ r. IsTrue (may_refuse act.now r))) }
{
    match act {
        Act::OpenProject { .. } | Act::AddMember { .. } | Act::Withdraw { .. } => Ok(None),
        Act::Submit { text, .. } => Ok(refused(judge.inspect(alloc, text)?)),
        Act::Accept {
            owner,
            project,
            submission,
        } => accepting_cause(alloc, keeper, judge, owner, project, *submission, held),
        Act::Waive {
            owner,
            project,
            submission,
        } => waiving_cause(alloc, keeper, judge, owner, project, *submission),
    }
}
