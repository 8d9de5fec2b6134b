ghost use Rattle.std.specs.Prelude.{◌≡◌, ◌<◌, ◌≤◌, ◌+◌, ◌*◌, ℤ, ℕ, ◌↔◌, IsTrue, ◌≤ℤ◌, pos, get_or, length, false};
ghost use Rattle.std.specs.Int.{int_max};
ghost use Rattle.vmv_zone.specs.Bounds.{IsMarkedIn, bound_at};

use crate::paths::CELLS;
use crate::zone::Zone;

impl Zone {
    ghost use Rattle.vmv_zone.specs.Zone.{vars_of, IsBelow, IsJoin, IsNormal};

    /// Whether this state is below the other.
    pub fn below(&self, other: &Zone) -> bool
        requires { vars_of self.now ≡ vars_of other.now }
        ensures { IsTrue result ↔ IsBelow self.now other.now }
    {
        if self.bottom {
            return true;
        }
        if other.bottom {
            return false;
        }
        let vars = self.vars as usize;
        bounds_below(&self.bounds, &other.bounds, vars)
            && marks_below(&self.marks, &other.marks, vars)
    }

    /// The least state above both: the greater bounds, and the marks of both.
    pub fn join(mut self, other: Zone) -> Zone
        requires { vars_of self ≡ vars_of other }
        ensures { IsJoin self other result }
    {
        self.join_with(&other);
        self
    }

    /// Raises this state to the least one above both: the greater bounds, and the marks of both.
    pub fn join_with(&mut self, other: &Zone)
        requires { vars_of self.old ≡ vars_of other.now }
        ensures join { IsJoin self.old other.now self.new }
        ensures normal { IsNormal self.old → IsNormal other.now → IsNormal self.new }
    {
        if other.bottom {
            return;
        }
        if self.bottom {
            self.copy_from(other);
            return;
        }
        raise(&mut self.bounds, &other.bounds, self.vars as usize);
        keep_shared(&mut self.marks, &other.marks);
    }

    /// Makes this state the other one.
    pub fn copy_from(&mut self, other: &Zone)
        ensures { self.new ≡ other.now }
    {
        let vars = self.vars.max(other.vars);
        copy_bounds(&mut self.bounds, &other.bounds, vars as usize);
        copy_marks(&mut self.marks, &other.marks);
        self.vars = other.vars;
        self.bottom = other.bottom;
    }
}

/// Whether each bound on `i` is at most the other.
fn row_below(bounds: &[i128; CELLS], other: &[i128; CELLS], vars: usize, i: usize) -> bool
    requires vars { vars ≤ 17 }
    requires i { i ≤ vars }
    ensures { IsTrue result ↔ ((j : ℕ) → j ≤ vars → bound_at bounds.now i j ≤ℤ bound_at other.now i j) }
{
    for j in 0..vars + 1 {
        if bounds[18 * i + j] > other[18 * i + j] {
            return false;
        }
    }
    true
}

/// Whether each bound is at most the other.
fn bounds_below(bounds: &[i128; CELLS], other: &[i128; CELLS], vars: usize) -> bool
    requires vars { vars ≤ 17 }
    ensures { IsTrue result ↔ ((i : ℕ) → i ≤ vars → (j : ℕ) → j ≤ vars → bound_at bounds.now i j ≤ℤ bound_at other.now i j) }
{
    for i in 0..vars + 1 {
        if !row_below(bounds, other, vars, i) {
            return false;
        }
    }
    true
}

/// Whether each mark of the other is one of these.
fn marks_below(marks: &[bool; 18], other: &[bool; 18], vars: usize) -> bool
    requires vars { vars ≤ 17 }
    ensures { IsTrue result ↔ ((i : ℕ) → 1 ≤ i → i ≤ vars → IsMarkedIn other.now i → IsMarkedIn marks.now i) }
{
    for i in 1..vars + 1 {
        if other[i] && !marks[i] {
            return false;
        }
    }
    true
}

/// Raises each bound on the things to the other.
fn raise(bounds: &mut [i128; CELLS], other: &[i128; CELLS], vars: usize)
    requires few { vars ≤ 17 }
    ensures full { length bounds.new ≡ 324 }
    ensures raised { (k : ℕ) → k < 18 * (vars + 1) → get_or bounds.new k (pos 0) ≡ int_max (get_or bounds.old k (pos 0)) (get_or other.now k (pos 0)) }
    ensures others { (k : ℕ) → 18 * (vars + 1) ≤ k → get_or bounds.new k (pos 0) ≡ get_or bounds.old k (pos 0) }
{
    for place in 0..18 * (vars + 1) {
        bounds[place] = bounds[place].max(other[place]);
    }
}

/// Makes each bound on the things the other.
fn copy_bounds(bounds: &mut [i128; CELLS], others: &[i128; CELLS], vars: usize)
    requires few { vars ≤ 17 }
    ensures full { length bounds.new ≡ 324 }
    ensures copied { (k : ℕ) → k < 18 * (vars + 1) → get_or bounds.new k (pos 0) ≡ get_or others.now k (pos 0) }
    ensures rest { (k : ℕ) → 18 * (vars + 1) ≤ k → get_or bounds.new k (pos 0) ≡ get_or bounds.old k (pos 0) }
{
    for place in 0..18 * (vars + 1) {
        bounds[place] = others[place];
    }
}

/// Makes the marks the others.
fn copy_marks(marks: &mut [bool; 18], others: &[bool; 18])
    ensures full { length marks.new ≡ 18 }
    ensures copied { (i : ℕ) → i < 18 → get_or marks.new i false ≡ get_or others.now i false }
{
    for i in 0..18 {
        marks[i] = others[i];
    }
}

/// Keeps the marks that the other has too.
fn keep_shared(marks: &mut [bool; 18], other: &[bool; 18])
    ensures full { length marks.new ≡ 18 }
    ensures shared { (i : ℕ) → IsMarkedIn marks.new i ↔ (IsMarkedIn marks.old i × IsMarkedIn other.now i) }
{
    for i in 0..18 {
        if !other[i] {
            marks[i] = false;
        }
    }
}
