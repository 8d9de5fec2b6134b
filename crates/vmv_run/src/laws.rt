ghost use Rattle.std.specs.Prelude.{◌≡◌, ◌≤◌, ◌++◌, ℕ, ℤ, List, [], length, map};
ghost use Rattle.std.specs.List.{Contains};
ghost use Rattle.vmv_tree.specs.declared.name.Name.{Name};
ghost use Rattle.vmv_tree.specs.declared.tree.Param.{Param};
ghost use Rattle.vmv_tree.specs.Tree.{Item, helper, entry, Body};
ghost use Rattle.vmv_tree.specs.Run.{Answers, Outcome, Run};
ghost use Rattle.vmv_tree.specs.Safe.{Environment, Safe};
ghost use Rattle.vmv_tree.specs.Valid.{Valid};
ghost use Rattle.vmv_tree.specs.Words.{IsWord};
ghost use Rattle.vmv_snapshot.specs.Resolves.{slot_names};
ghost use Rattle.vmv_run.specs.declared.outcome.Outcome.{Outcome as Found};
ghost use Rattle.vmv_run.specs.Slots.{AreNamedOnce};
ghost use Rattle.vmv_run.specs.Replay.{IsProcName, IsReplay};
ghost use Rattle.vmv_run.specs.Asked.{AreOutside, AreSameFor};
ghost use Rattle.vmv_run.specs.Constant.{OneRun};
ghost use Rattle.vmv_run.specs.Steps.{steps_of_run};

/// An entry of a valid program has exactly one run on given words in which each outside name always gives the same word.
/// It has at most 10,000 answers and 100,000 unrolled steps.
pub fn one_constant_run()
    ensures { (program : List Item) (name : Name) (params : List Param) (body : Body) (words : List ℤ) (c : Name → ℤ) → Valid program → Contains program (entry name params body) → ((f : Name) → IsWord (c f)) → OneRun program name words c }
{}

/// Each run of an entry of a valid program has at most 10,000 answers and 100,000 unrolled steps, whatever the answers.
pub fn runs_are_short()
    ensures { (program : List Item) (name : Name) (params : List Param) (body : Body) (words : List ℤ) (answers : Answers) (outcome : Outcome) → Valid program → Contains program (entry name params body) → (run : Run program name words answers outcome) → (length answers ≤ 10000) × (steps_of_run program name words answers outcome run ≤ 100000) }
{}

/// A run is determined by its answers: where the answers of one run begin those of another on the same words, the two
/// runs are one.
pub fn answers_determine_a_run()
    ensures { (program : List Item) (proc : Name) (words : List ℤ) (answers more : Answers) (outcome end : Outcome) → Run program proc words answers outcome → Run program proc words (answers ++ more) end → (more ≡ []) × (outcome ≡ end) }
{}

/// Each answer of a run carries the name of an outside item of the program.
pub fn answers_are_of_outside_items()
    ensures { (program : List Item) (proc : Name) (words : List ℤ) (answers : Answers) (outcome : Outcome) → Run program proc words answers outcome → AreOutside program answers }
{}

/// What is safe for a program depends on the words of its outside names alone.
pub fn outside_names_decide_safety()
    ensures { (program : List Item) (env other : Environment) → AreSameFor program env other → Safe env program → Safe other program }
{}

/// In a procedure of a valid program no two slots have one name.
pub fn slots_are_named_once()
    ensures helpers { (program : List Item) (name : Name) (params : List Name) (body : Body) → Valid program → Contains program (helper name params body) → AreNamedOnce (slot_names params body) }
    ensures entries { (program : List Item) (name : Name) (params : List Param) (body : Body) → Valid program → Contains program (entry name params body) → AreNamedOnce (slot_names (map (λ p. p.name) params) body) }
{}

/// No two procedures of a valid program have one name.
pub fn procedures_are_named_once()
    ensures { (program : List Item) (m n : ℕ) (name : Name) → Valid program → IsProcName program m name → IsProcName program n name → m ≡ n }
{}

/// Of given answers at most one thing is found.
pub fn one_finding()
    ensures { (program : List Item) (proc : Name) (words : List ℤ) (answers : Answers) (found other : Found) → Valid program → IsReplay program proc words answers found → IsReplay program proc words answers other → found ≡ other }
{}
