ghost use Rattle.std.specs.Prelude.{◌≡◌, ◌≢◌, ◌⊎◌, ◌<◌, ◌≤◌, ◌+◌, ◌-◌, ◌^◌, ℕ, pos, negsuc, ◌+ℤ◌, ◌≤ℤ◌, length, get_or};
ghost use Rattle.std.specs.Int.{int_min};
ghost use Rattle.vmv_zone.specs.Bounds.{IsInReach, AreInReach, AreUnderTop, AreZeroOutside, IsClosed, IsWide, IsTable, IsTableBy, bound_at, top_bound, extended_bound, dropped_bound, freed_bound, through_bound};
ghost use Rattle.vmv_zone.specs.Lines.{LineSet, ColumnCopied, RowCopied, RowFilled};

use crate::paths::CELLS;

/// Fills in top's bounds, where there are none.
pub(crate) fn fill_top(bounds: &mut [i128; CELLS], vars: usize)
    requires few { vars ≤ 17 }
    requires zeros { (k : ℕ) → get_or bounds.old k (pos 0) ≡ pos 0 }
    ensures { IsTableBy (λ i j b. b ≡ top_bound i j) vars bounds.new }
{
    for i in 0..vars + 1 {
        top_row(bounds, vars, i);
    }
}

/// Fills in top's bounds on `i`.
fn top_row(bounds: &mut [i128; CELLS], vars: usize, i: usize)
    requires few { vars ≤ 17 }
    requires i { i ≤ vars }
    requires reach { AreInReach bounds.old }
    ensures { RowFilled (λ j b. b ≡ top_bound i j) bounds.old bounds.new i (vars + 1) }
{
    for j in 0..vars + 1 {
        bounds[18 * i + j] = top_of(i, j);
    }
}

/// The bound on `i - j` that words keep.
pub(crate) fn top_of(i: usize, j: usize) -> i128
    ensures { result ≡ top_bound i j }
{
    if i == j {
        0
    } else if j == 0 {
        i64::MAX as i128
    } else if i == 0 {
        1 << 63
    } else {
        u64::MAX as i128
    }
}

/// Adds the bounds on the variable `last`, as words and the bounds against 0 keep them. There are none on it before.
pub(crate) fn extend_bounds(bounds: &mut [i128; CELLS], last: usize)
    requires last { last ≤ 17 }
    requires variable { 1 ≤ last }
    requires reach { AreInReach bounds.old }
    requires topped { AreUnderTop (last - 1) bounds.old }
    requires outside { AreZeroOutside (last - 1) bounds.old }
    ensures { IsTableBy (λ i j b. b ≡ extended_bound bounds.old last i j) last bounds.new }
{
    for k in 0..last {
        let from = extended_at(bounds, last, last, k);
        let to = extended_at(bounds, last, k, last);
        bounds[18 * last + k] = from;
        bounds[18 * k + last] = to;
    }
}

/// The bound on `i - j`, as words and the bounds against 0 keep it where one of them is `last`; 0 where `j` is past it.
fn extended_at(bounds: &[i128; CELLS], last: usize, i: usize, j: usize) -> i128
    requires i { i ≤ last }
    requires last { last ≤ 17 }
    requires variable { 1 ≤ last }
    requires j { j ≤ 17 }
    requires reach { AreInReach bounds.now }
    requires topped { AreUnderTop (last - 1) bounds.now }
    ensures inside { j ≤ last → result ≡ extended_bound bounds.now last i j }
    ensures outside { last < j → result ≡ pos 0 }
    ensures reach { IsInReach result }
{
    if j > last {
        return 0;
    }
    if j == last {
        return if i == last {
            0
        } else {
            bounds[18 * i] + (1 << 63)
        };
    }
    if i == last {
        return i64::MAX as i128 + bounds[j];
    }
    bounds[18 * i + j]
}

/// Closes the closed bounds again with the bound on `i - j` lowered.
///
/// A path that the lower bound shortens goes once over it, so one look at each pair of things is enough; and where it
/// doesn't shorten the way from a thing to `j`, it shortens none from there.
pub(crate) fn close_through(
    bounds: &mut [i128; CELLS],
    vars: usize,
    i: usize,
    j: usize,
    bound: i128,
)
    requires few { vars ≤ 17 }
    requires i { i ≤ vars }
    requires j { j ≤ vars }
    requires reach { AreInReach bounds.old }
    requires outside { AreZeroOutside vars bounds.old }
    requires bound { IsInReach bound }
    requires closed { IsClosed (bound_at bounds.old) vars }
    requires cycle { pos 0 ≤ℤ (bound +ℤ bound_at bounds.old j i) }
    ensures { IsTableBy (λ p q b. b ≡ through_bound bounds.old i j bound p q) vars bounds.new }
{
    for p in 0..vars + 1 {
        let through = bounds[18 * p + i] + bound;
        if through < bounds[18 * p + j] {
            lower_row(bounds, vars, j, p, through);
        }
    }
}

/// Lowers the bounds on `p` to those of the paths to `j`, which have the length `through`, and on.
fn lower_row(bounds: &mut [i128; CELLS], vars: usize, j: usize, p: usize, through: i128)
    requires few { vars ≤ 17 }
    requires j { j ≤ vars }
    requires p { p ≤ vars }
    requires reach { AreInReach bounds.old }
    requires wide { IsWide through }
    requires room { (q : ℕ) → q ≤ vars → negsuc (2 ^ 64 - 1) ≤ℤ (through +ℤ bound_at bounds.old j q) }
    ensures row { (q : ℕ) → q ≤ vars → bound_at bounds.new p q ≡ int_min (bound_at bounds.old p q) (through +ℤ bound_at bounds.old j q) }
    ensures others { (r q : ℕ) → q < 18 → r ≢ p ⊎ vars < q → bound_at bounds.new r q ≡ bound_at bounds.old r q }
    ensures reach { AreInReach bounds.new }
{
    for q in 0..vars + 1 {
        let path = through + bounds[18 * j + q];
        bounds[18 * p + q] = path.min(bounds[18 * p + q]);
    }
}

/// Puts the bounds on the last variable in place of those on `to`, and leaves none on the last.
pub(crate) fn drop_bounds(bounds: &mut [i128; CELLS], to: usize, last: usize)
    requires last { last ≤ 17 }
    requires to { to < last }
    requires reach { AreInReach bounds.old }
    requires outside { AreZeroOutside last bounds.old }
    ensures { IsTable (dropped_bound bounds.old to last) (last - 1) bounds.new }
{
    copy_column(bounds, to, last);
    copy_row(bounds, to, last);
    clear_line(bounds, last);
}

/// Puts the upper bounds on differences to the last variable in place of those on differences to `to`.
fn copy_column(bounds: &mut [i128; CELLS], to: usize, last: usize)
    requires last { last ≤ 17 }
    requires to { to < last }
    requires reach { AreInReach bounds.old }
    ensures { ColumnCopied bounds.old bounds.new to last (last + 1) }
{
    for k in 0..last + 1 {
        bounds[18 * k + to] = bounds[18 * k + last];
    }
}

/// Puts the bounds on differences of the last variable in place of those on differences of `to`.
fn copy_row(bounds: &mut [i128; CELLS], to: usize, last: usize)
    requires last { last ≤ 17 }
    requires to { to < last }
    requires reach { AreInReach bounds.old }
    ensures { RowCopied bounds.old bounds.new to last last }
{
    for k in 0..last {
        bounds[18 * to + k] = bounds[18 * last + k];
    }
}

/// Leaves no bounds on the last variable.
fn clear_line(bounds: &mut [i128; CELLS], last: usize)
    requires last { last ≤ 17 }
    requires reach { AreInReach bounds.old }
    ensures { LineSet (λ i j. pos 0) bounds.old bounds.new last (last + 1) }
{
    for k in 0..last + 1 {
        bounds[18 * last + k] = 0;
        bounds[18 * k + last] = 0;
    }
}

/// Puts top's bounds in place of those on the variable `x`.
pub(crate) fn free_bounds(bounds: &mut [i128; CELLS], vars: usize, x: usize)
    requires few { vars ≤ 17 }
    requires x { x ≤ vars }
    requires reach { AreInReach bounds.old }
    requires outside { AreZeroOutside vars bounds.old }
    ensures { IsTable (freed_bound bounds.old x) vars bounds.new }
{
    for k in 0..vars + 1 {
        let from = top_of(x, k);
        let to = top_of(k, x);
        bounds[18 * x + k] = from;
        bounds[18 * k + x] = to;
    }
}

/// Leaves no bounds at all.
pub(crate) fn blank_bounds(bounds: &mut [i128; CELLS], vars: usize)
    requires few { vars ≤ 17 }
    requires outside { AreZeroOutside vars bounds.old }
    ensures full { length bounds.new ≡ 324 }
    ensures zeros { (k : ℕ) → get_or bounds.new k (pos 0) ≡ pos 0 }
{
    for place in 0..18 * (vars + 1) {
        bounds[place] = 0;
    }
}
