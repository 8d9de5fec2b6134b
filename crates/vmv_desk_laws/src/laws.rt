ghost use Rattle.std.specs.Prelude.{◌≡◌, ◌≢◌, ◌≤◌, ℕ, List, Some, None, IsSomeAnd};
ghost use Rattle.std.specs.List.{AllByRecursion};
ghost use Rattle.vmv_keeper.specs.Formed.{AreFormed, IsDone, IsProject};
ghost use Rattle.vmv_keeper.specs.declared.act.Act.{Act};
ghost use Rattle.vmv_keeper.specs.declared.act.Query.{Query};
ghost use Rattle.vmv_keeper.specs.Tables.{Tables, project_named, kept_under, root_number, version_text};
ghost use Rattle.vmv_keeper.specs.declared.project.Project.{Project};
ghost use Rattle.vmv_keeper.specs.declared.reply.Reply.{Reply};
ghost use Rattle.vmv_desk_rules.specs.Causes.{chain, root_text};
ghost use Rattle.vmv_desk_rules.specs.Heard.{StepBy, TurnBy, RunsBy};
ghost use Rattle.vmv_desk_laws.specs.Seen.{seen_by, caller_of};
ghost use Rattle.vmv_desk_laws.specs.Orders.{SeesSame};
ghost use Rattle.vmv_desk_laws.specs.Others.{MayChange};
ghost use Rattle.vmv_desk_laws.specs.Versions.{Extends};
ghost use Rattle.vmv_desk_laws.specs.Shown.{Shows};

use vmv_keeper::{Command, Judge};

/// A law, with nothing to do: a command has one step by a judge, whatever it was asked.
pub fn a_command_has_one_step<J: Judge>(_judge: &J)
    ensures { (tables new other : Tables) (command : Command) (reply again : Reply) → StepBy (J.inspected _judge.now) (J.compared _judge.now) tables command new reply
        → StepBy (J.inspected _judge.now) (J.compared _judge.now) tables command other again → (new ≡ other) × (reply ≡ again) }
{}

/// A law, with nothing to do: callers are kept apart. Where two tables show a caller the same, he has the same
/// reply in both, and sees the same behind it.
pub fn callers_are_kept_apart<J: Judge>(_judge: &J)
    ensures { (tables new others behind : Tables) (command : Command) (reply again : Reply) → AreFormed tables → AreFormed others
        → seen_by (caller_of command) tables ≡ seen_by (caller_of command) others
        → StepBy (J.inspected _judge.now) (J.compared _judge.now) tables command new reply → StepBy (J.inspected _judge.now) (J.compared _judge.now) others command behind again
        → (reply ≡ again) × (seen_by (caller_of command) new ≡ seen_by (caller_of command) behind) }
{}

/// A law, with nothing to do: the order of projects isn't seen. Where two tables show a caller the same projects, in
/// whatever order, and the same replies, he has the same reply in both, and is shown the same so behind it.
pub fn order_of_projects_is_not_seen<J: Judge>(_judge: &J)
    ensures { (tables new others behind : Tables) (command : Command) (reply again : Reply) → AreFormed tables → AreFormed others
        → SeesSame (caller_of command) tables others
        → StepBy (J.inspected _judge.now) (J.compared _judge.now) tables command new reply → StepBy (J.inspected _judge.now) (J.compared _judge.now) others command behind again
        → (reply ≡ again) × SeesSame (caller_of command) new behind }
{}

/// A law, with nothing to do: a command changes no project but the one that its act is about, and no reply that is
/// kept for another caller.
pub fn others_stay<J: Judge>(_judge: &J)
    ensures projects { (tables new : Tables) (command : Command) (reply : Reply) (owner name : List ℕ) → StepBy (J.inspected _judge.now) (J.compared _judge.now) tables command new reply
        → (MayChange command owner name → ⊥) → project_named new owner name ≡ project_named tables owner name }
    ensures replies { (tables new : Tables) (command : Command) (reply : Reply) (other id : List ℕ) → StepBy (J.inspected _judge.now) (J.compared _judge.now) tables command new reply
        → other ≢ caller_of command → kept_under new other id ≡ kept_under tables other id }
{}

/// A law, with nothing to do: a version is never changed. Each project stays under its owner and name, with all its
/// versions in their places.
pub fn versions_are_never_changed<J: Judge>(_judge: &J)
    ensures step { (tables new : Tables) (command : Command) (reply : Reply) (owner name : List ℕ) (p : Project) → StepBy (J.inspected _judge.now) (J.compared _judge.now) tables command new reply
        → project_named tables owner name ≡ Some p → IsSomeAnd (project_named new owner name) (λ q. Extends p.versions q.versions) }
    ensures ever { (tables now : Tables) (commands : List Command) (replies : List Reply) (owner name : List ℕ) (p : Project)
        → RunsBy (J.inspected _judge.now) (J.compared _judge.now) tables commands now replies
        → project_named tables owner name ≡ Some p → IsSomeAnd (project_named now owner name) (λ q. Extends p.versions q.versions) }
{}

/// A law, with nothing to do: the rows hold what was done. Behind an act that was done under a new id, the project
/// has the version, the member or the submission that the reply tells of, and nothing waits that was withdrawn or
/// became a version.
pub fn done_rows_are_held<J: Judge>(_judge: &J)
    ensures { (before behind : Tables) (caller id : List ℕ) (act : Act) (reply : Reply) → AreFormed before → kept_under before caller id ≡ None
        → StepBy (J.inspected _judge.now) (J.compared _judge.now) before (Command.Change caller id act) behind reply → IsDone act reply → Shows before behind caller act reply }
{}

/// A law, with nothing to do: what fails changes nothing. An act that isn't done leaves the rows as they were, for
/// whatever cause, a fault included; and so does a question.
pub fn failures_change_nothing<J: Judge>(_judge: &J)
    ensures acts { (tables new : Tables) (caller id : List ℕ) (act : Act) (reply : Reply) → TurnBy (J.inspected _judge.now) (J.compared _judge.now) tables (Command.Change caller id act) new reply
        → (IsDone act reply → ⊥) → new ≡ tables }
    ensures questions { (tables new : Tables) (caller : List ℕ) (query : Query) (reply : Reply) → TurnBy (J.inspected _judge.now) (J.compared _judge.now) tables (Command.Ask caller query) new reply
        → new ≡ tables }
{}

/// A law, with nothing to do: a project's latest root begins its chain. The version of the root's number has the text of
/// the chain's first version, and no version of the chain has a number below it.
pub fn roots_begin_their_chains()
    ensures text { (p : Project) → IsProject p → version_text (root_number p) p ≡ Some (root_text p) }
    ensures numbers { (p : Project) → IsProject p → AllByRecursion (λ version. root_number p ≤ version.row.number) (chain p) }
{}
