ghost use Rattle.std.specs.Prelude.{◌≡◌, ℕ, List};
ghost use Rattle.vmv_keeper.specs.Formed.{IsDone};
ghost use Rattle.std.specs.List.{AllByRecursion};
ghost use Rattle.vmv_keeper.specs.Tables.{Tables, no_rows};
ghost use Rattle.vmv_keeper.specs.declared.act.Act.{Act};
ghost use Rattle.vmv_keeper.specs.declared.reply.Reply.{Reply};
ghost use Rattle.vmv_desk_rules.specs.Heard.{BySaid, StepBy, RunsBy, WellBy};
ghost use Rattle.vmv_desk_rules.specs.Chain.{KeepsChains};
ghost use Rattle.vmv_desk_rules.specs.Keeping.{IsKeptAs};
ghost use Rattle.vmv_desk_rules.specs.Migrating.{WasWell, IsMigrated};

use vmv_keeper::{Command, Judge};

/// A law, with nothing to do: a step keeps rows well.
pub fn steps_keep_rows_well<J: Judge>(_judge: &J)
    ensures { (tables new : Tables) (command : Command) (reply : Reply) → WellBy (J.inspected _judge.now) (J.compared _judge.now) tables
        → StepBy (J.inspected _judge.now) (J.compared _judge.now) tables command new reply → WellBy (J.inspected _judge.now) (J.compared _judge.now) new }
{}

/// A law, with nothing to do: in well rows each version of a project's chain, its base among them, keeps what the
/// root of the chain does.
pub fn well_rows_keep_chains<J: Judge>(_judge: &J)
    ensures { (tables : Tables) → WellBy (J.inspected _judge.now) (J.compared _judge.now) tables → KeepsChains (J.keeps _judge.now) tables }
{}

/// A law, with nothing to do: an id acts once. After an act was done, the same act under the same caller and id
/// has that reply and changes nothing, whatever came between.
pub fn an_id_acts_once<J: Judge>(_judge: &J)
    ensures { (before behind now then : Tables) (caller id : List ℕ) (act : Act) (reply again : Reply) (commands : List Command) (replies : List Reply)
        → StepBy (J.inspected _judge.now) (J.compared _judge.now) before (Command.Change caller id act) behind reply → IsDone act reply
        → RunsBy (J.inspected _judge.now) (J.compared _judge.now) behind commands now replies
        → StepBy (J.inspected _judge.now) (J.compared _judge.now) now (Command.Change caller id act) then again → (again ≡ reply) × (then ≡ now) }
{}

/// A law, with nothing to do: an act that was done is kept with its reply, whatever came since.
pub fn done_acts_are_kept<J: Judge>(_judge: &J)
    ensures { (before behind now : Tables) (caller id : List ℕ) (act : Act) (reply : Reply) (commands : List Command) (replies : List Reply)
        → StepBy (J.inspected _judge.now) (J.compared _judge.now) before (Command.Change caller id act) behind reply → IsDone act reply
        → RunsBy (J.inspected _judge.now) (J.compared _judge.now) behind commands now replies → IsKeptAs now caller id act reply }
{}

/// A law, with nothing to do: no rows are well, whatever the judge.
pub fn no_rows_are_well<J: Judge>(_judge: &J)
    ensures { WellBy (J.inspected _judge.now) (J.compared _judge.now) no_rows }
{}

/// A law, with nothing to do: histories that begin without rows need no premise. After any commands, repeats and
/// faults among them, the rows are well, and each version of a project's chain keeps what its root does.
pub fn histories_need_no_premise<J: Judge>(_judge: &J)
    ensures well { (new : Tables) (commands : List Command) (replies : List Reply)
        → RunsBy (J.inspected _judge.now) (J.compared _judge.now) no_rows commands new replies → WellBy (J.inspected _judge.now) (J.compared _judge.now) new }
    ensures chains { (new : Tables) (commands : List Command) (replies : List Reply)
        → RunsBy (J.inspected _judge.now) (J.compared _judge.now) no_rows commands new replies → KeepsChains (J.keeps _judge.now) new }
{}

/// A law, with nothing to do: rows that were well while each accepted version was judged against the one before it
/// are well once `migrate` has given what their versions were judged against.
pub fn migrated_rows_are_well<J: Judge>(_judge: &J)
    ensures { (tables : Tables) → BySaid (J.inspected _judge.now) (J.compared _judge.now) (λ M. WasWell M tables) → AllByRecursion IsMigrated tables.projects
        → WellBy (J.inspected _judge.now) (J.compared _judge.now) tables }
{}
