ghost use Rattle.std.specs.Prelude.{ℤ, List};
ghost use Rattle.vmv_tree.specs.declared.name.Name.{Name};
ghost use Rattle.vmv_tree.specs.Run.{Answers, Outcome, Run};
ghost use Rattle.vmv_surface.specs.Surface.{Item, ProgramHasPlainNames};
ghost use Rattle.vmv_surface.specs.Runs.{SRun};
ghost use Rattle.vmv_surface.specs.Lower.{Lower};

/// A surface program and the program that it is lowered to have the same runs: with the same words, answers, outcomes
/// and sites. No variable of a surface program begins with two underscores.
pub fn lowering_keeps_runs()
    ensures lowered { (program : List Item) (proc : Name) (words : List ℤ) (answers : Answers) (outcome : Outcome) → ProgramHasPlainNames program → SRun program proc words answers outcome → Run (Lower program) proc words answers outcome }
    ensures surface { (program : List Item) (proc : Name) (words : List ℤ) (answers : Answers) (outcome : Outcome) → ProgramHasPlainNames program → Run (Lower program) proc words answers outcome → SRun program proc words answers outcome }
{}
