ghost use Rattle.std.specs.Prelude.{ℤ};
ghost use Rattle.vmv_tree.specs.declared.name.Name.{Name};
ghost use Rattle.vmv_tree.specs.Run.{Answers};
ghost use Rattle.vmv_tree.specs.Safe.{Environment, AreIn};
ghost use Rattle.vmv_cond.specs.declared.cond.Piece.{Piece};
ghost use Rattle.vmv_assumption.specs.Whole.{whole};
ghost use Rattle.vmv_assumption.specs.Assumed.{Assumed};
ghost use Rattle.vmv_assumption.specs.Change.{IsKept, IsCut};
ghost use Rattle.vmv_assumption.specs.Within.{IsBelow, IsWithin, Meet, AreInPiece, AreOffPiece};

/// Each assumption is below itself.
pub fn below_itself()
    ensures { (a : Assumed) → IsBelow a a }
{}

/// What is below something below a third is below the third.
pub fn below_through()
    ensures { (a b c : Assumed) → IsBelow a b → IsBelow b c → IsBelow a c }
{}

/// An environment within an assumption is within each larger one.
pub fn within_is_monotone()
    ensures { (env : Environment) (a b : Assumed) → IsBelow a b → IsWithin env a → IsWithin env b }
{}

/// Answers that meet an assumption meet each larger one.
pub fn meeting_is_monotone()
    ensures { (answers : Answers) (a b : Assumed) → IsBelow a b → Meet answers a → Meet answers b }
{}

/// The answers of an environment within an assumption meet it.
pub fn answers_within_meet()
    ensures { (env : Environment) (a : Assumed) (answers : Answers) → IsWithin env a → AreIn answers env → Meet answers a }
{}

/// Every environment is within the whole condition for every name.
pub fn every_environment_is_within_whole()
    ensures { (env : Environment) → IsWithin env (λ name. whole) }
{}

/// What is kept to a piece of one name is below what it was.
pub fn kept_is_below()
    ensures { (a b : Assumed) (f : Name) (piece : Piece) → IsKept a f piece b → IsBelow b a }
{}

/// What is cut by a piece of one name is below what it was.
pub fn cut_is_below()
    ensures { (a b : Assumed) (f : Name) (piece : Piece) → IsCut a f piece b → IsBelow b a }
{}

/// An environment within an assumption, all of whose words for a name lie in a piece, is within the assumption kept to it.
pub fn within_what_is_kept()
    ensures { (env : Environment) (a b : Assumed) (f : Name) (piece : Piece) → IsWithin env a → AreInPiece env f piece → IsKept a f piece b → IsWithin env b }
{}

/// An environment within an assumption, none of whose words for a name lies in a piece, is within the assumption cut by it.
pub fn within_what_is_cut()
    ensures { (env : Environment) (a b : Assumed) (f : Name) (piece : Piece) → IsWithin env a → AreOffPiece env f piece → IsCut a f piece b → IsWithin env b }
{}

/// A lower assumption is lower when both are kept to one piece of one name.
pub fn kept_is_monotone()
    ensures { (a b c d : Assumed) (f : Name) (piece : Piece) → IsBelow a b → IsKept a f piece c → IsKept b f piece d → IsBelow c d }
{}

/// A lower assumption is lower when both are cut by one piece of one name.
pub fn cut_is_monotone()
    ensures { (a b c d : Assumed) (f : Name) (piece : Piece) → IsBelow a b → IsCut a f piece c → IsCut b f piece d → IsBelow c d }
{}
