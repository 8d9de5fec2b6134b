ghost use Rattle.std.specs.Prelude.{◌≡◌, List};
ghost use Rattle.vmv_tree.specs.Safe.{Environment, Covers, Safe};
ghost use Rattle.vmv_snapshot.specs.Resolution.{Resolution, tree_of, IsResolution};
ghost use Rattle.vmv_assumption.specs.Whole.{whole};
ghost use Rattle.vmv_assumption.specs.Assumed.{Assumed};
ghost use Rattle.vmv_assumption.specs.Within.{IsWithin};
ghost use Rattle.vmv_need.specs.declared.subject.Scope.{Scope};
ghost use Rattle.vmv_need.specs.declared.candidate.Candidate.{Candidate};
ghost use Rattle.vmv_need.specs.declared.cut.Cut.{Cut};
ghost use Rattle.vmv_need.specs.Candidates.{IsScopeOf};
ghost use Rattle.vmv_need.specs.Acts.{IsStable, IsNecessary, CutsLead};
ghost use Rattle.vmv_need.specs.Rounds.{HasCuts};
ghost use Rattle.vmv_need.specs.Vacuous.{IsVacuous};

/// One scope is looked at in a program.
pub fn a_program_has_one_scope()
    ensures { (program : Resolution) (one other : Scope) → IsScopeOf program one → IsScopeOf program other → one ≡ other }
{}

/// A program has necessary conditions: it can't be that it has none.
pub fn necessary_conditions_exist()
    ensures { (program : Resolution) (scope : Scope) → IsResolution program → ¬ (¬ ((assumed : Assumed) × IsNecessary program scope assumed)) }
{}

/// A program has one list of necessary conditions.
pub fn necessary_conditions_are_unique()
    ensures { (program : Resolution) (scope : Scope) (a b : Assumed) → IsNecessary program scope a → IsNecessary program scope b → a ≡ b }
{}

/// Exclusions in any order lead from the whole conditions to the necessary ones, once no candidate acts any more.
pub fn cuts_in_any_order_lead_to_the_necessary()
    ensures { (program : Resolution) (scope : Scope) (steps : List Candidate) (last : Assumed) → IsResolution program → CutsLead program scope steps (λ name. whole) last → IsStable program scope last → IsNecessary program scope last }
{}

/// The rounds end in the necessary conditions.
pub fn rounds_end_in_the_necessary()
    ensures { (program : Resolution) (scope : Scope) (last : Assumed) (cuts : List Cut) → IsResolution program → HasCuts program scope last cuts → IsNecessary program scope last }
{}

/// The rounds record one list of exclusions.
pub fn rounds_record_one_list()
    ensures { (program : Resolution) (scope : Scope) (one other : Assumed) (cuts others : List Cut) → HasCuts program scope one cuts → HasCuts program scope other others → cuts ≡ others }
{}

/// Each environment that is safe for a program meets its necessary conditions.
pub fn safe_environments_meet_the_necessary()
    ensures { (program : Resolution) (scope : Scope) (assumed : Assumed) (env : Environment) → IsResolution program → IsNecessary program scope assumed → Covers env (tree_of program) → Safe env (tree_of program) → IsWithin env assumed }
{}

/// No environment is safe for a program that is vacuous under its necessary conditions.
pub fn vacuous_programs_have_no_safe_environment()
    ensures { (program : Resolution) (scope : Scope) (assumed : Assumed) (env : Environment) → IsResolution program → IsNecessary program scope assumed → IsVacuous program scope assumed → Covers env (tree_of program) → Safe env (tree_of program) → ⊥ }
{}
