ghost use Rattle.std.specs.Prelude.{◌≡◌, ◌+◌, ◌≤◌, length};
ghost use Rattle.vmv_zone.specs.Bounds.{top_bound};
ghost use Rattle.vmv_zone.specs.Zone.{vars_of};
ghost use Rattle.vmv_proof_text.specs.States.{is_named, named_bound, bounds_of_thing, bounds_below_top, marked_variables};

use vmv_zone::Zone;

/// The bound on `i - j` that all words keep.
fn top_of(i: u8, j: u8) -> i128
    ensures { result ≡ top_bound i j }
{
    if i == j {
        0
    } else if j == 0 {
        i64::MAX as i128
    } else if i == 0 {
        1 << 63
    } else {
        u64::MAX as i128
    }
}

/// Whether the bound on `i - j` is below top's.
pub(crate) fn is_named(zone: &Zone, i: u8, j: u8) -> bool
    requires i { i ≤ vars_of zone.now }
    requires j { j ≤ vars_of zone.now }
    ensures { result ≡ is_named zone.now i j }
{
    i != j && zone.bound(i, j) < top_of(i, j)
}

/// 1 where the bound on `i - j` is below top's, else 0.
fn count_of_bound(zone: &Zone, i: u8, j: u8) -> usize
    requires i { i ≤ vars_of zone.now }
    requires j { j ≤ vars_of zone.now }
    ensures count { result ≡ length (named_bound zone.now i j) }
    ensures few { result ≤ 1 }
{
    if is_named(zone, i, j) { 1 } else { 0 }
}

/// How many bounds on `i` minus another thing are below top's.
fn count_of_thing(zone: &Zone, i: u8) -> usize
    requires { i ≤ vars_of zone.now }
    ensures count { result ≡ length (bounds_of_thing zone.now i (vars_of zone.now + 1)) }
    ensures few { result ≤ vars_of zone.now + 1 }
{
    let mut count = 0;
    for j in 0..zone.vars() as usize + 1 {
        count += count_of_bound(zone, i, j as u8);
    }
    count
}

/// How many bounds are below top's.
pub(crate) fn count_bounds(zone: &Zone) -> usize
    ensures { result ≡ length (bounds_below_top zone.now) }
{
    let mut count = 0;
    for i in 0..zone.vars() as usize + 1 {
        count += count_of_thing(zone, i as u8);
    }
    count
}

/// How many variables are marked.
pub(crate) fn count_marks(zone: &Zone) -> usize
    ensures { result ≡ length (marked_variables zone.now) }
{
    let mut count = 0;
    for i in 0..zone.vars() {
        if zone.marked(i + 1) {
            count += 1;
        }
    }
    count
}
