ghost use Rattle.std.specs.Prelude.{◌≡◌, ℕ, ℤ, Some, List, length, slice_get};
ghost use Rattle.std.specs.List.{Contains};
ghost use Rattle.vmv_tree.specs.declared.name.Name.{Name};
ghost use Rattle.vmv_tree.specs.declared.ends.NameEnds.{NameEnds};
ghost use Rattle.vmv_tree.specs.declared.site.NamedSite.{NamedSite};
ghost use Rattle.vmv_tree.specs.declared.tree.Param.{Param};
ghost use Rattle.vmv_tree.specs.Tree.{entry, Body};
ghost use Rattle.vmv_tree.specs.Run.{Answers, Site, Outcome, done, Outcome.fail, Run};
ghost use Rattle.vmv_tree.specs.Safe.{Environment, Covers, AreIn, FitParams, Safe};
ghost use Rattle.vmv_cond.specs.declared.cond.Piece.{Piece};
ghost use Rattle.vmv_snapshot.specs.Resolution.{Resolution, IsResolution, tree_of, procs_of};
ghost use Rattle.vmv_zone.specs.Zone.{vars_of, HasPoint};
ghost use Rattle.vmv_assumption.specs.Assumed.{Assumed};
ghost use Rattle.vmv_assumption.specs.Change.{IsKept};
ghost use Rattle.vmv_assumption.specs.Within.{IsWithin, Meet, AreOffPiece};
ghost use Rattle.vmv_step.specs.Agree.{words_at};
ghost use Rattle.vmv_run.specs.Replay.{IsProcName};
ghost use Rattle.vmv_cert.specs.declared.row.Row.{Row};
ghost use Rattle.vmv_cert.specs.Tables.{Accepted, Box, IsSiteOf, Provable, Dead};
ghost use Rattle.vmv_table_sound.specs.Told.{named, IsTold, AreInBox, IsProved, SaysNoReturn, LeavesOut};

/// A run that starts at a point of the input of an accepted table's row, and whose answers meet what is assumed, ends as
/// the row tells.
pub fn accepted_tables_are_sound()
    ensures { (program : Resolution) (assumed : Assumed) (rows : List Row) (row : Row) (words : List ℤ) (answers : Answers) (outcome : Outcome) → IsResolution program → Accepted program assumed rows → Contains rows row → length words ≡ vars_of row.input → HasPoint row.input (words_at words) → Meet answers assumed → Run (tree_of program) row.proc words answers outcome → IsTold row outcome }
{}

/// No run of a dead entry from words of the box returns, where its answers meet what is assumed.
pub fn dead_entries_dont_return()
    ensures { (program : Resolution) (number : ℕ) (box : Box) (ends : List NameEnds) (assumed : Assumed) (name : Name) (words : List ℤ) (answers : Answers) (word : ℤ) → IsResolution program → Dead program number box ends assumed → IsProcName (tree_of program) number name → AreInBox box words → Meet answers assumed → Run (tree_of program) name words answers (done word) → ⊥ }
{}

/// Where an entry is dead with the condition of f kept to a piece, a safe environment within what is assumed has no word
/// of the piece for f.
pub fn dead_pieces_are_avoided()
    ensures { (program : Resolution) (number : ℕ) (box : Box) (ends : List NameEnds) (assumed kept : Assumed) (f : Name) (piece : Piece) (env : Environment) → IsResolution program → IsKept assumed f piece kept → Dead program number box ends kept → Covers env (tree_of program) → IsWithin env assumed → Safe env (tree_of program) → AreOffPiece env f piece }
{}

/// Where an entry is dead, no environment within what is assumed that has words for each outside name is safe.
pub fn dead_bases_have_no_safe_environment()
    ensures { (program : Resolution) (number : ℕ) (box : Box) (ends : List NameEnds) (assumed : Assumed) (env : Environment) → IsResolution program → Dead program number box ends assumed → Covers env (tree_of program) → IsWithin env assumed → Safe env (tree_of program) → ⊥ }
{}

/// No run of an entry fails at a provable site, where the environment is within what is assumed.
pub fn provable_sites_dont_fail()
    ensures { (program : Resolution) (number : ℕ) (ends : List NameEnds) (assumed : Assumed) (site : NamedSite) (env : Environment) (name : Name) (params : List Param) (body : Body) (words : List ℤ) (answers : Answers) → IsResolution program → Provable program number ends assumed site → slice_get (procs_of program) number ≡ Some (entry name params body) → FitParams params words → IsWithin env assumed → AreIn answers env → Run (tree_of program) name words answers (fail (record { proc = site.proc; number = site.index })) → ⊥ }
{}

/// A run of an entry that fails, fails at a site of a procedure that the entry reaches.
pub fn failing_sites_are_reached()
    ensures { (program : Resolution) (name : Name) (params : List Param) (body : Body) (words : List ℤ) (answers : Answers) (site : Site) → IsResolution program → Contains (tree_of program) (entry name params body) → Run (tree_of program) name words answers (fail site) → (number : ℕ) × (home : ℕ) × (slice_get (procs_of program) number ≡ Some (entry name params body)) × IsSiteOf program number home (named site) }
{}

/// Where each site that an entry reaches is provable, each environment within what is assumed is safe.
pub fn proved_programs_are_safe()
    ensures { (program : Resolution) (ends : List NameEnds) (assumed : Assumed) (env : Environment) → IsResolution program → IsProved program ends assumed → IsWithin env assumed → Safe env (tree_of program) }
{}

/// Where an accepted table, whatever its states at loops are, says that an entry doesn't return with the condition of f kept
/// to a piece, a safe environment within what is assumed has no word of the piece for f.
pub fn tables_avoid_pieces()
    ensures { (program : Resolution) (number : ℕ) (box : Box) (assumed kept : Assumed) (rows : List Row) (f : Name) (piece : Piece) (env : Environment) → IsResolution program → IsKept assumed f piece kept → SaysNoReturn program number box kept rows → Covers env (tree_of program) → IsWithin env assumed → Safe env (tree_of program) → AreOffPiece env f piece }
{}

/// No run of an entry fails at a site that an accepted table, whatever its states at loops are, doesn't list for its whole
/// ranges, where the environment is within what is assumed.
pub fn sites_left_out_dont_fail()
    ensures { (program : Resolution) (number : ℕ) (assumed : Assumed) (rows : List Row) (site : NamedSite) (env : Environment) (name : Name) (params : List Param) (body : Body) (words : List ℤ) (answers : Answers) → IsResolution program → LeavesOut program number assumed rows site → slice_get (procs_of program) number ≡ Some (entry name params body) → FitParams params words → IsWithin env assumed → AreIn answers env → Run (tree_of program) name words answers (fail (record { proc = site.proc; number = site.index })) → ⊥ }
{}
