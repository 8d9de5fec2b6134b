ghost use Rattle.std.specs.Prelude.{◌≡◌, ◌+◌, ◌≤◌, ℕ, ℤ, pos, ◌≤ℤ◌, ◌<ℤ◌, int_lt, MatchBool, IsTrue, Option, Some, None, List, ◌∷◌, ◌++◌, length, map, reverse, slice_get};
ghost use Rattle.std.specs.List.{All};
ghost use Rattle.vmv_tree.specs.declared.name.Name.{Name};
ghost use Rattle.vmv_tree.specs.declared.tree.Operand.{Operand};
ghost use Rattle.vmv_tree.specs.declared.tree.Test.{Test};
ghost use Rattle.vmv_tree.specs.Words.{IsWord};
ghost use Rattle.vmv_tree.specs.Tree.{Stmt, Item, Body};
ghost use Rattle.vmv_tree.specs.Run.{Valuation, Answers, Site, next, fail, value, holds, assign, start, Runs, RunsAbove};
ghost use Rattle.vmv_cond.specs.declared.cond.Cond.{Cond};
ghost use Rattle.vmv_cond.specs.Cond.{Holds};
ghost use Rattle.vmv_snapshot.specs.declared.code.Slot.{Slot};
ghost use Rattle.vmv_snapshot.specs.declared.code.CodeOperand.{CodeOperand};
ghost use Rattle.vmv_snapshot.specs.declared.code.CodeTest.{CodeTest};
ghost use Rattle.vmv_snapshot.specs.declared.code.Simple.{Simple};
ghost use Rattle.vmv_tree.specs.Valid.{Valid};
ghost use Rattle.vmv_snapshot.specs.Procs.{procs, outsides};
ghost use Rattle.vmv_snapshot.specs.Code.{plain, Body as Code};
ghost use Rattle.vmv_snapshot.specs.Resolves.{Scope, slot_names, IsSlot, ResolvesOperand, ResolvesTest, ResolvesArgs, Resolves, IsCode};
ghost use Rattle.vmv_zone.specs.declared.zone.Zone.{Zone};
ghost use Rattle.vmv_zone.specs.declared.operand.ZoneValue.TheVariants.{Within};
ghost use Rattle.vmv_zone.specs.Zone.{vars_of, HasPoint, IsBelow, IsNormal};
ghost use Rattle.vmv_zone.specs.Operand.{value_at};
ghost use Rattle.vmv_zone.specs.Points.{updated};
ghost use Rattle.vmv_zone.specs.Args.{IsArgsOf};
ghost use Rattle.vmv_zone.specs.Step.{IsAssigned};
ghost use Rattle.vmv_assumption.specs.Assumed.{Assumed};
ghost use Rattle.vmv_assumption.specs.Within.{IsBelow as IsLess, Meet};
ghost use Rattle.vmv_step.specs.declared.stepped.Stepped.{Stepped};
ghost use Rattle.vmv_step.specs.Zones.{zone_operand, zone_args, IsVariable, IsInside, IsTestInside, AreInside};
ghost use Rattle.vmv_step.specs.Steps.{IsSimpleInside, IsStepped, IsBranched};
ghost use Rattle.vmv_step.specs.Loops.{IsHead, IsTurn, IsAgain, IsLeft};
ghost use Rattle.vmv_step.specs.Enter.{IsEntered};
ghost use Rattle.vmv_step.specs.Agree.{AreSlots, AreSlotsOf, HasStart, Agrees, Follows, IsWordOperand, HasWords, AreAsked, HasSite, words_at};

/// Where a statement passes from a point, the valuation behind it is a point of the state behind it.
pub fn step_keeps_points()
    ensures { (above : List Item) (scope : Scope) (proc : Name) (k : ℕ) (s : Stmt) (c : Simple) (A : Assumed) (z : Zone) (r : Stepped) (v w : Valuation) (answers : Answers) (p : ℕ → ℤ) → AreSlots (vars_of z) scope.slots → AreAsked above scope.outsides → Resolves scope k s (plain c) → HasWords c → IsStepped c A z r → HasPoint z p → Agrees scope.slots v p → Meet answers A → Runs (RunsAbove above) proc k s v answers (next w) → Follows r.zone scope.slots w p }
{}

/// Where a statement fails from a point, its site is unproved.
pub fn failing_sites_are_unproved()
    ensures { (above : List Item) (scope : Scope) (proc : Name) (k : ℕ) (s : Stmt) (c : Simple) (A : Assumed) (z : Zone) (r : Stepped) (v : Valuation) (answers : Answers) (p : ℕ → ℤ) (site : Site) → AreSlots (vars_of z) scope.slots → AreAsked above scope.outsides → Resolves scope k s (plain c) → HasWords c → IsStepped c A z r → HasPoint z p → Agrees scope.slots v p → Runs (RunsAbove above) proc k s v answers (fail site) → IsTrue r.unproved × (site.proc ≡ proc) × HasSite c site.number }
{}

/// A point is one of the state in which the part of an `if` starts that the test picks.
pub fn branch_keeps_points()
    ensures { (scope : Scope) (test : Test) (code : CodeTest) (z first second : Zone) (v : Valuation) (p : ℕ → ℤ) → AreSlots (vars_of z) scope.slots → ResolvesTest scope test code → IsBranched code z first second → HasPoint z p → Agrees scope.slots v p → MatchBool (holds v test) (HasPoint first p) (HasPoint second p) }
{}

/// A bound above the cap is unproved. Otherwise a point with the bound in its slot and the index 0 is one of the head.
pub fn head_keeps_points()
    ensures { (scope : Scope) (index : Name) (i slot : Slot) (bound : Operand) (code : CodeOperand) (most : ℤ) (z : Zone) (r : Stepped) (v : Valuation) (p : ℕ → ℤ) → AreSlots (vars_of z) scope.slots → IsSlot scope index i → slot.0 ≡ i.0 + 1 → slice_get scope.slots slot.0 ≡ Some None → ResolvesOperand scope bound code → IsWordOperand code → IsHead i slot code most z r → HasPoint z p → Agrees scope.slots v p → MatchBool (int_lt most (value v bound)) (IsTrue r.unproved) (HasPoint r.zone (updated (updated p slot.0 (value v bound)) i.0 (pos 0)) × Agrees scope.slots (assign v index (pos 0)) (updated (updated p slot.0 (value v bound)) i.0 (pos 0))) }
{}

/// A point whose index is less than the bound is one in which a turn starts.
pub fn turn_keeps_points()
    ensures { (i slot : Slot) (z r : Zone) (p : ℕ → ℤ) → IsVariable (vars_of z) i → IsVariable (vars_of z) slot → IsTurn i slot z r → HasPoint z p → p i.0 <ℤ p slot.0 → HasPoint r p }
{}

/// Behind a turn with the index n, a point with the index n + 1 is one of the state.
pub fn again_keeps_points()
    ensures { (scope : Scope) (index : Name) (i : Slot) (z r : Zone) (v : Valuation) (p : ℕ → ℤ) (n : ℕ) → AreSlots (vars_of z) scope.slots → IsSlot scope index i → IsAgain i z r → HasPoint z p → Agrees scope.slots v p → v index ≡ pos n → IsWord (pos (n + 1)) → HasPoint r (updated p i.0 (pos (n + 1))) × Agrees scope.slots (assign v index (pos (n + 1))) (updated p i.0 (pos (n + 1))) }
{}

/// A point whose bound is at most its index w is, with any word for the index and for the bound, one of the state behind
/// the loop.
pub fn leave_keeps_points()
    ensures { (i slot : Slot) (z r : Zone) (p : ℕ → ℤ) (a b : ℤ) → IsVariable (vars_of z) i → IsVariable (vars_of z) slot → IsLeft i slot z r → HasPoint z p → p slot.0 ≤ℤ p i.0 → IsWord a → IsWord b → HasPoint r (updated (updated p i.0 a) slot.0 b) }
{}

/// Behind a loop, a point with the valuation's own word for the index agrees with it.
pub fn left_slots_agree()
    ensures { (scope : Scope) (vars : ℕ) (index : Name) (i slot : Slot) (v : Valuation) (p : ℕ → ℤ) (w b : ℤ) → AreSlots vars scope.slots → IsSlot scope index i → slice_get scope.slots slot.0 ≡ Some None → IsWord (v index) → Agrees scope.slots (assign v index w) p → Agrees scope.slots v (updated (updated p i.0 (v index)) slot.0 b) }
{}

/// A word of the condition that a variable is given makes a point of the state behind that.
pub fn given_words_keep_points()
    ensures { (scope : Scope) (to : Name) (slot : Slot) (c : Cond) (z r : Zone) (v : Valuation) (p : ℕ → ℤ) (w : ℤ) → AreSlots (vars_of z) scope.slots → IsSlot scope to slot → IsAssigned z slot.0 (Within c) r → HasPoint z p → Agrees scope.slots v p → IsWord w → Holds c w → Follows r scope.slots (assign v to w) p }
{}

/// An operand has the value of the operand that it resolves.
pub fn resolved_operands_have_the_value()
    ensures { (scope : Scope) (o : Operand) (c : CodeOperand) (v : Valuation) (p : ℕ → ℤ) → ResolvesOperand scope o c → Agrees scope.slots v p → value_at p (zone_operand c) ≡ value v o }
{}

/// The words of the arguments are a point of the arguments' state.
pub fn pass_keeps_points()
    ensures { (scope : Scope) (args : List Operand) (codes : List CodeOperand) (z r : Zone) (v : Valuation) (p : ℕ → ℤ) → AreSlots (vars_of z) scope.slots → ResolvesArgs scope args codes → All IsWordOperand codes → IsArgsOf z (zone_args codes) r → HasPoint z p → Agrees scope.slots v p → HasPoint r (words_at (map (value v) args)) }
{}

/// The slots that a resolved statement gives or reads are variables.
pub fn resolved_slots_are_variables()
    ensures { (vars : ℕ) (scope : Scope) (k : ℕ) (s : Stmt) (c : Simple) → AreSlots vars scope.slots → Resolves scope k s (plain c) → IsSimpleInside vars c }
{}

/// A resolved operand is a literal or a variable.
pub fn resolved_operands_are_inside()
    ensures { (vars : ℕ) (scope : Scope) (o : Operand) (c : CodeOperand) → AreSlots vars scope.slots → ResolvesOperand scope o c → IsInside vars c }
{}

/// Resolved arguments are literals and variables.
pub fn resolved_arguments_are_inside()
    ensures { (vars : ℕ) (scope : Scope) (args : List Operand) (codes : List CodeOperand) → AreSlots vars scope.slots → ResolvesArgs scope args codes → AreInside vars codes }
{}

/// Lower states have lower states behind a statement under a lower assumption, and no more unproved.
pub fn step_is_monotone()
    ensures { (c : Simple) (A B : Assumed) (a b : Zone) (r s : Stepped) → vars_of a ≡ vars_of b → IsSimpleInside (vars_of b) c → HasWords c → IsStepped c A a r → IsStepped c B b s → IsLess A B → IsBelow a b → IsBelow r.zone s.zone × (IsTrue r.unproved → IsTrue s.unproved) }
{}

/// Lower states have lower states in both parts of an `if`.
pub fn branch_is_monotone()
    ensures { (code : CodeTest) (a b first second first' second' : Zone) → vars_of a ≡ vars_of b → IsTestInside (vars_of b) code → IsBranched code a first second → IsBranched code b first' second' → IsBelow a b → IsBelow first first' × IsBelow second second' }
{}

/// Lower states have lower heads of a loop, and no more unproved.
pub fn head_is_monotone()
    ensures { (i slot : Slot) (code : CodeOperand) (most : ℤ) (a b : Zone) (r s : Stepped) → vars_of a ≡ vars_of b → IsVariable (vars_of b) i → IsVariable (vars_of b) slot → IsInside (vars_of b) code → IsHead i slot code most a r → IsHead i slot code most b s → IsBelow a b → IsBelow r.zone s.zone × (IsTrue r.unproved → IsTrue s.unproved) }
{}

/// Lower states have lower states in which a turn starts.
pub fn turn_is_monotone()
    ensures { (i slot : Slot) (a b r s : Zone) → vars_of a ≡ vars_of b → IsVariable (vars_of b) i → IsVariable (vars_of b) slot → IsTurn i slot a r → IsTurn i slot b s → IsBelow a b → IsBelow r s }
{}

/// Lower states have lower states behind a turn.
pub fn again_is_monotone()
    ensures { (i : Slot) (a b r s : Zone) → vars_of a ≡ vars_of b → IsVariable (vars_of b) i → IsAgain i a r → IsAgain i b s → IsBelow a b → IsBelow r s }
{}

/// Lower states have lower states behind a loop.
pub fn leave_is_monotone()
    ensures { (i slot : Slot) (a b r s : Zone) → vars_of a ≡ vars_of b → IsVariable (vars_of b) i → IsVariable (vars_of b) slot → IsLeft i slot a r → IsLeft i slot b s → IsBelow a b → IsBelow r s }
{}

/// Lower states have lower states of arguments.
pub fn pass_is_monotone()
    ensures { (codes : List CodeOperand) (a b r s : Zone) → vars_of a ≡ vars_of b → AreInside (vars_of b) codes → IsArgsOf a (zone_args codes) r → IsArgsOf b (zone_args codes) s → IsBelow a b → IsBelow r s }
{}

/// The states of arguments are normal, and over a variable for each.
pub fn passed_states_are_normal()
    ensures { (codes : List CodeOperand) (z r : Zone) → AreInside (vars_of z) codes → IsArgsOf z (zone_args codes) r → IsNormal r × (vars_of r ≡ length codes) }
{}

/// The states that steps leave behind are normal, and over as many variables.
pub fn steps_are_normal()
    ensures { (c : Simple) (A : Assumed) (z : Zone) (r : Stepped) → IsSimpleInside (vars_of z) c → IsStepped c A z r → IsNormal r.zone × (vars_of r.zone ≡ vars_of z) }
{}

/// The states of both parts of an `if` are normal, and over as many variables.
pub fn branches_are_normal()
    ensures { (code : CodeTest) (z first second : Zone) → IsBranched code z first second → (IsNormal first × (vars_of first ≡ vars_of z)) × (IsNormal second × (vars_of second ≡ vars_of z)) }
{}

/// The heads of loops are normal, and over as many variables.
pub fn heads_are_normal()
    ensures { (i slot : Slot) (code : CodeOperand) (most : ℤ) (z : Zone) (r : Stepped) → IsVariable (vars_of z) i → IsVariable (vars_of z) slot → IsHead i slot code most z r → IsNormal r.zone × (vars_of r.zone ≡ vars_of z) }
{}

/// The states in which turns start are normal, and over as many variables.
pub fn turns_are_normal()
    ensures { (i slot : Slot) (z r : Zone) → IsTurn i slot z r → IsNormal r × (vars_of r ≡ vars_of z) }
{}

/// The states behind turns are normal, and over as many variables.
pub fn states_behind_turns_are_normal()
    ensures { (i : Slot) (z r : Zone) → IsVariable (vars_of z) i → IsAgain i z r → IsNormal r × (vars_of r ≡ vars_of z) }
{}

/// The states behind loops are normal, and over as many variables.
pub fn states_behind_loops_are_normal()
    ensures { (i slot : Slot) (z r : Zone) → IsLeft i slot z r → IsNormal r × (vars_of r ≡ vars_of z) }
{}

/// In a valid program the slots of a procedure are those that its names stand for, and each name stands for one.
pub fn procedures_have_slots()
    ensures { (program : List Item) (number : ℕ) (code : Code) (item : Item) → Valid program → IsCode program number code → slice_get (procs program) number ≡ Some item → AreSlotsOf item code.vars }
{}

/// In a valid program the calls of the outside names before a procedure answer any word.
pub fn outside_calls_answer_words()
    ensures { (before : List Item) (item : Item) (after : List Item) → Valid (before ++ item ∷ after) → AreAsked (reverse before) (outsides before) }
{}

/// Where the words of the parameters are a point of the input, the valuation in which a procedure starts has a point of
/// the state in which it starts.
pub fn enter_keeps_points()
    ensures { (params : List Name) (body : Body) (words : List ℤ) (count : ℕ) (input r : Zone) → AreSlots count (slot_names params body) → IsEntered input (length params) (length body.vars) count r → vars_of input ≡ length params → length words ≡ length params → HasPoint input (words_at words) → HasStart r (slot_names params body) (start params words) }
{}

/// Lower inputs have lower states in which a procedure starts.
pub fn enter_is_monotone()
    ensures { (params declared count : ℕ) (a b r s : Zone) → vars_of a ≡ params → vars_of b ≡ params → params ≤ count → IsEntered a params declared count r → IsEntered b params declared count s → IsBelow a b → IsBelow r s }
{}

/// The states in which procedures start are normal, and over the procedure's variables.
pub fn entered_states_are_normal()
    ensures { (params declared count : ℕ) (input r : Zone) → IsEntered input params declared count r → IsNormal r × (vars_of r ≡ count) }
{}
