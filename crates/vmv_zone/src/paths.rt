ghost use Rattle.std.specs.Prelude.{◌≡◌, ◌⊎◌, ℕ, ◌+◌, ◌*◌, ◌-◌, ◌^◌, ◌<◌, ◌≤◌, ℤ, pos, negsuc, ◌+ℤ◌, ◌≤ℤ◌, ◌<ℤ◌, length, set, ◌≢◌, IsTrue, IsFalse, List, Bool};
ghost use Rattle.std.specs.Int.{int_min};
ghost use Rattle.vmv_zone.specs.Bounds.{Below, IsInReach, AreInReach, IsWide, IsClosed, IsTight, IsMarkedIn, IsOffZero, bound_at, through_bound};
ghost use Rattle.vmv_zone.specs.Change.{Relaxes, Settles};

/// A place for each pair of the 18 things.
pub(crate) const CELLS: usize = 324;

/// What a step did to the bounds.
#[derive(Clone, Copy)]
pub(crate) enum Change {
    /// Nothing.
    Same,
    /// Some bound is lower.
    Lower,
}

/// Lowers the bound on `p - q` to the length of a path. False, and nothing is changed, where the path and the bound on
/// the way back are together below 0.
fn shorten(bounds: &mut [i128; CELLS], vars: usize, p: usize, q: usize, path: i128) -> bool
    requires vars { vars ≤ 17 }
    requires p { p ≤ vars }
    requires q { q ≤ vars }
    requires reach { AreInReach bounds.old }
    requires wide { IsWide path }
    ensures lowered { IsTrue result → bounds.new ≡ set bounds.old (18 * p + q) (int_min path (bound_at bounds.old p q)) }
    ensures room { IsTrue result → negsuc (2 ^ 64 - 1) ≤ℤ int_min path (bound_at bounds.old p q) }
    ensures stays { IsFalse result → bounds.new ≡ bounds.old }
    ensures cycle { IsFalse result → (path +ℤ bound_at bounds.old q p) <ℤ pos 0 }
{
    if path >= bounds[18 * p + q] {
        return true;
    }
    if path + bounds[18 * q + p] < 0 {
        return false;
    }
    bounds[18 * p + q] = path;
    true
}

/// Lowers the bounds on `p` to those of the paths to `j`, which have the length `through`, and on. False where no point is
/// left.
fn relax_row(bounds: &mut [i128; CELLS], vars: usize, j: usize, p: usize, through: i128) -> bool
    requires vars { vars ≤ 17 }
    requires j { j ≤ vars }
    requires p { p ≤ vars }
    requires reach { AreInReach bounds.old }
    requires through { IsInReach through }
    ensures full { length bounds.new ≡ 324 }
    ensures settles { Settles (λ n. IsClosed n vars × (n p j ≤ℤ through)) vars bounds.old bounds.new }
    ensures row { IsTrue result → (q : ℕ) → q ≤ vars → bound_at bounds.new p q ≡ int_min (bound_at bounds.old p q) (through +ℤ bound_at bounds.old j q) }
    ensures others { IsTrue result → (r q : ℕ) → q < 18 → r ≢ p ⊎ vars < q → bound_at bounds.new r q ≡ bound_at bounds.old r q }
    ensures empty { IsFalse result → (n : ℕ → ℕ → ℤ) → IsClosed n vars → n p j ≤ℤ through → ¬ Below n vars bounds.old }
{
    for q in 0..vars + 1 {
        let path = through + bounds[18 * j + q];
        if !shorten(bounds, vars, p, q, path) {
            return false;
        }
    }
    true
}

/// Lowers every bound to that of the path through `j`. False where no point is left.
fn relax_through(bounds: &mut [i128; CELLS], vars: usize, j: usize) -> bool
    requires vars { vars ≤ 17 }
    requires j { j ≤ vars }
    requires reach { AreInReach bounds.old }
    ensures full { length bounds.new ≡ 324 }
    ensures settles { Settles (λ n. IsClosed n vars) vars bounds.old bounds.new }
    ensures cycle { IsTrue result → pos 0 ≤ℤ bound_at bounds.old j j }
    ensures lowered { IsTrue result → (p q : ℕ) → p ≤ vars → q ≤ vars → bound_at bounds.new p q ≡ through_bound bounds.old j j (pos 0) p q }
    ensures empty { IsFalse result → (n : ℕ → ℕ → ℤ) → IsClosed n vars → ¬ Below n vars bounds.old }
{
    if bounds[18 * j + j] < 0 {
        return false;
    }
    for p in 0..vars + 1 {
        let through = bounds[18 * p + j];
        if !relax_row(bounds, vars, j, p, through) {
            return false;
        }
    }
    true
}

/// Closes the bounds: lowers each to the shortest path, through each thing in turn (Floyd's shortest paths). What has no
/// cycle below 0 is closed behind the last, so that no second look is needed. False where no point is left.
fn close(bounds: &mut [i128; CELLS], vars: usize) -> bool
    requires vars { vars ≤ 17 }
    requires reach { AreInReach bounds.old }
    requires top { (i : ℕ) → i ≤ vars → bound_at bounds.old i i ≤ℤ pos 0 }
    ensures full { length bounds.new ≡ 324 }
    ensures settles { Settles (λ n. IsClosed n vars) vars bounds.old bounds.new }
    ensures closed { IsTrue result → IsClosed (bound_at bounds.new) vars }
    ensures empty { IsFalse result → (n : ℕ → ℕ → ℤ) → IsClosed n vars → ¬ Below n vars bounds.old }
{
    for j in 0..vars + 1 {
        if !relax_through(bounds, vars, j) {
            return false;
        }
    }
    true
}

/// Takes a bound against 0 of a marked variable off 0.
pub(crate) fn step_off(
    bounds: &mut [i128; CELLS],
    marks: &[bool; 18],
    vars: usize,
    i: usize,
    j: usize,
) -> Change
    requires vars { vars ≤ 17 }
    requires i { i ≤ vars }
    requires j { j ≤ vars }
    requires reach { AreInReach bounds.old }
    requires off { (n : ℕ → ℕ → ℤ) → IsTight n marks.now vars → n i j ≢ pos 0 }
    ensures relaxes { Relaxes result (λ n. IsTight n marks.now vars) vars bounds.old bounds.new }
    ensures off { result ≡ Change.Same → bound_at bounds.old i j ≢ pos 0 }
{
    if bounds[18 * i + j] != 0 {
        return Change::Same;
    }
    bounds[18 * i + j] = -1;
    Change::Lower
}

/// Takes the bounds of a marked variable against 0 off 0.
pub(crate) fn tighten_at(
    bounds: &mut [i128; CELLS],
    marks: &[bool; 18],
    vars: usize,
    i: usize,
) -> Change
    requires vars { vars ≤ 17 }
    requires variable { 1 ≤ i }
    requires i { i ≤ vars }
    requires reach { AreInReach bounds.old }
    ensures relaxes { Relaxes result (λ n. IsTight n marks.now vars) vars bounds.old bounds.new }
    ensures off { result ≡ Change.Same → IsMarkedIn marks.now i → IsOffZero bounds.old i }
{
    if !marks[i] {
        return Change::Same;
    }
    match step_off(bounds, marks, vars, i, 0) {
        Change::Same => step_off(bounds, marks, vars, 0, i),
        change => change,
    }
}

/// Takes the bounds of each marked variable against 0 off 0.
pub(crate) fn tighten(bounds: &mut [i128; CELLS], marks: &[bool; 18], vars: usize) -> Change
    requires vars { vars ≤ 17 }
    requires reach { AreInReach bounds.old }
    ensures relaxes { Relaxes result (λ n. IsTight n marks.now vars) vars bounds.old bounds.new }
    ensures off { result ≡ Change.Same → (i : ℕ) → i ≤ vars → 1 ≤ i → IsMarkedIn marks.now i → IsOffZero bounds.old i }
{
    let mut change = Change::Same;
    for i in 1..vars + 1 {
        match tighten_at(bounds, marks, vars, i) {
            Change::Same => {}
            Change::Lower => change = Change::Lower,
        }
    }
    change
}

/// Lowers closed bounds as far as marks, and paths after them, go; false where no point is left.
pub(crate) fn settle_closed(bounds: &mut [i128; CELLS], marks: &[bool; 18], vars: usize) -> bool
    requires vars { vars ≤ 17 }
    requires reach { AreInReach bounds.old }
    requires closed { IsClosed (bound_at bounds.old) vars }
    ensures full { length bounds.new ≡ 324 }
    ensures settles { Settles (λ n. IsTight n marks.now vars) vars bounds.old bounds.new }
    ensures tight { IsTrue result → IsTight (bound_at bounds.new) marks.now vars }
    ensures empty { IsFalse result → (n : ℕ → ℕ → ℤ) → IsTight n marks.now vars → ¬ Below n vars bounds.old }
{
    while let Change::Lower = tighten(bounds, marks, vars) {
        if !close(bounds, vars) {
            return false;
        }
    }
    true
}

/// Lowers the bounds as far as paths and marks go; false where no point is left.
pub(crate) fn settle(bounds: &mut [i128; CELLS], marks: &[bool; 18], vars: usize) -> bool
    requires vars { vars ≤ 17 }
    requires reach { AreInReach bounds.old }
    requires top { (i : ℕ) → i ≤ vars → bound_at bounds.old i i ≤ℤ pos 0 }
    ensures full { length bounds.new ≡ 324 }
    ensures settles { Settles (λ n. IsTight n marks.now vars) vars bounds.old bounds.new }
    ensures tight { IsTrue result → IsTight (bound_at bounds.new) marks.now vars }
    ensures empty { IsFalse result → (n : ℕ → ℕ → ℤ) → IsTight n marks.now vars → ¬ Below n vars bounds.old }
{
    if !close(bounds, vars) {
        return false;
    }
    settle_closed(bounds, marks, vars)
}
