ghost use Rattle.std.specs.Prelude.{List};
ghost use Rattle.vmv_keeper.specs.declared.act.Command.{Command};
ghost use Rattle.vmv_keeper.specs.declared.reply.Reply.{Reply};
ghost use Rattle.vmv_keeper.specs.Tables.{Tables, no_rows};
ghost use Rattle.vmv_desk_rules.specs.Chain.{KeepsChains};
ghost use Rattle.vmv_desk_rules.specs.Heard.{RunsBy, WellBy};
ghost use Rattle.vmv_gate.specs.Judged.{Inspects, Compares, Keeps};
ghost use Rattle.vmv_gate.specs.Since.{HoldSinceRoots};

use crate::gate::Gate;
use std::thread::Threads;
use vmv_crew::Shared;
use vmv_desk_rules::{histories_need_no_premise, well_rows_keep_chains};
use vmv_report::correct_revisions_are_safe_within_the_necessary;

/// A law, with nothing to do: in rows that are well, what is necessary for the root of a project's chain is below what is
/// necessary for each version of it, and each version but the root is safe in every environment within it.
pub fn needs_hold_since_the_root<'a, R>(_gate: &Gate<'a, R>)
    ensures { (tables : Tables) → WellBy Inspects Compares tables → HoldSinceRoots tables }
{
    correct_revisions_are_safe_within_the_necessary();
}

/// A law, with nothing to do: in rows that are well each version of a project's chain is relatively correct to its root.
pub fn versions_are_correct_since_the_root<'a, R: Threads + Shared + Sync>(_gate: &Gate<'a, R>)
    ensures { (tables : Tables) → WellBy Inspects Compares tables → KeepsChains Keeps tables }
{
    well_rows_keep_chains(_gate);
}

/// A law, with nothing to do: histories that begin without rows need no premise. After any commands, repeats and faults
/// among them, the rows are well, each version of a project's chain is relatively correct to its root, and what is
/// necessary holds since the root.
pub fn histories_are_correct<'a, R: Threads + Shared + Sync>(_gate: &Gate<'a, R>)
    ensures well { (new : Tables) (commands : List Command) (replies : List Reply) → RunsBy Inspects Compares no_rows commands new replies → WellBy Inspects Compares new }
    ensures correct { (new : Tables) (commands : List Command) (replies : List Reply) → RunsBy Inspects Compares no_rows commands new replies → KeepsChains Keeps new }
    ensures needed { (new : Tables) (commands : List Command) (replies : List Reply) → RunsBy Inspects Compares no_rows commands new replies → HoldSinceRoots new }
{
    histories_need_no_premise(_gate);
    needs_hold_since_the_root(_gate);
}
