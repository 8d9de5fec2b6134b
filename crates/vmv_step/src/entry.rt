ghost use Rattle.std.specs.Prelude.{◌≡◌, ◌≢◌, ◌+◌, ◌≤◌, ◌<◌, ◌^◌, ◌-◌, ℕ, pos, negsuc, ◌≤ℤ◌, Some, length, slice_get, false, if◌then◌else◌, nat_le};
ghost use Rattle.vmv_tree.specs.Tree as tree;
ghost use Rattle.vmv_tree.specs.View.{item_of, items_of};
ghost use Rattle.vmv_snapshot.specs.declared.code.Code.{Code};
ghost use Rattle.vmv_snapshot.specs.Procs.{procs, params_of};
ghost use Rattle.vmv_snapshot.specs.Resolution.{procs_of};
ghost use Rattle.vmv_zone.specs.Bounds.{top_bound};
ghost use Rattle.vmv_zone.specs.Zone.{vars_of, NotBottom, bound_of, mark_of, IsTop};
ghost use Rattle.vmv_step.specs.Enter.{declared_count, is_declared, entered_bound, IsStart, IsEntered, IsProcOf};

use vmv_snapshot::{ProcId, Snapshot};
use vmv_tree::Item;
use vmv_zone::Zone;

/// The state in which a procedure starts: the input on the parameters, 0 for each declared name, and any words in the
/// slots of loops.
///
/// The procedure is one of the snapshot's, and the input is over its parameters. The input needn't be normal.
pub fn enter(snapshot: &Snapshot, proc: ProcId, input: &Zone) -> Zone
    requires proc { proc.0 < length (procs_of snapshot.now) }
    requires input { (item : tree.Item) → slice_get (procs_of snapshot.now) proc.0 ≡ Some item → vars_of input.now ≡ length (params_of item) }
    ensures { (item : tree.Item) (code : Code) → slice_get (procs_of snapshot.now) proc.0 ≡ Some item → slice_get snapshot.now.codes proc.0 ≡ Some code → IsEntered input.now (length (params_of item)) (declared_count item) code.vars result }
{
    let mut zone = Zone::bottom(0);
    enter_into(snapshot, proc, input, &mut zone);
    zone
}

/// Makes the other state the one in which a procedure starts.
///
/// The procedure is one of the snapshot's, and the input is over its parameters. The input needn't be normal.
pub fn enter_into(snapshot: &Snapshot, proc: ProcId, input: &Zone, into: &mut Zone)
    requires proc { proc.0 < length (procs_of snapshot.now) }
    requires input { (item : tree.Item) → slice_get (procs_of snapshot.now) proc.0 ≡ Some item → vars_of input.now ≡ length (params_of item) }
    ensures { (item : tree.Item) (code : Code) → slice_get (procs_of snapshot.now) proc.0 ≡ Some item → slice_get snapshot.now.codes proc.0 ≡ Some code → IsEntered input.now (length (params_of item)) (declared_count item) code.vars into.new }
{
    let code = snapshot.code(proc);
    let declared = declared_of(snapshot.program().items.as_slice(), proc);
    start(input, declared as u8, code.vars, into);
}

/// How many names the procedure of this number declares; 0 where there is none.
fn declared_of(items: &[Item], proc: ProcId) -> usize
    ensures { (item : tree.Item) → slice_get (procs (items_of items.now)) proc.0 ≡ Some item → result ≡ declared_count item }
{
    let mut before = proc.0;
    for item in items {
        if let Some(count) = declared_in(item) {
            if before == 0 {
                return count;
            }
            before -= 1;
        }
    }
    0
}

/// How many names the item declares, where it is a procedure.
fn declared_in(item: &Item) -> Option<usize>
    ensures { IsProcOf (item_of item.now) result }
{
    match item {
        Item::Outside { .. } => None,
        Item::Helper { body, .. } => Some(body.vars.len()),
        Item::Entry { body, .. } => Some(body.vars.len()),
    }
}

/// Makes the other state the one in which a procedure with so many declared names and variables starts.
fn start(input: &Zone, declared: u8, count: u8, into: &mut Zone)
    requires few { count ≤ 16 }
    requires room { vars_of input.now + declared ≤ count }
    ensures { IsEntered input.now (vars_of input.now) declared count into.new }
{
    if input.is_bottom() {
        into.empty(count);
        return;
    }
    into.fill(count);
    set_bounds(into, input, declared);
    set_marks(into, input);
    into.normalize();
}

/// Whether the thing is the variable of a declared name: one of those that stand behind so many parameters.
fn is_declared(params: u8, declared: u8, i: u8) -> bool
    requires { params + declared ≤ 16 }
    ensures { result ≡ is_declared params declared i }
{
    params < i && i <= params + declared
}

/// The bound on `i - j` in the state in which a procedure starts, where the state has top's bounds on `i` against `j` and
/// on.
fn bound_between(input: &Zone, declared: u8, zone: &Zone, i: u8, j: u8) -> i128
    requires few { vars_of input.now + declared ≤ 16 }
    requires i { i ≤ vars_of zone.now }
    requires j { j ≤ vars_of zone.now }
    requires top { (q : ℕ) → j ≤ q → q ≤ vars_of zone.now → bound_of zone.now i q ≡ top_bound i q }
    ensures value { result ≡ entered_bound input.now (vars_of input.now) declared i j }
    ensures low { negsuc (2 ^ 64 - 1) ≤ℤ result }
    ensures high { result ≤ℤ top_bound i j }
{
    let params = input.vars();
    if i <= params && j <= params {
        return input.bound(i, j);
    }
    let above = is_declared(params, declared, i) && j == 0;
    let below = i == 0 && is_declared(params, declared, j);
    if above || below { 0 } else { zone.bound(i, j) }
}

/// Sets the bounds on `i`, which are top's, to those with which a procedure starts.
fn set_row(zone: &mut Zone, input: &Zone, declared: u8, i: u8)
    requires few { vars_of input.now + declared ≤ 16 }
    requires count { vars_of zone.old ≤ 16 }
    requires not_bottom { NotBottom zone.old }
    requires i { i ≤ vars_of zone.old }
    requires top { (j : ℕ) → j ≤ vars_of zone.old → bound_of zone.old i j ≡ top_bound i j }
    ensures vars { vars_of zone.new ≡ vars_of zone.old }
    ensures not_bottom { NotBottom zone.new }
    ensures row { (j : ℕ) → j ≤ vars_of zone.old → bound_of zone.new i j ≡ entered_bound input.now (vars_of input.now) declared i j }
    ensures others { (p q : ℕ) → p ≤ vars_of zone.old → q ≤ vars_of zone.old → p ≢ i → bound_of zone.new p q ≡ bound_of zone.old p q }
    ensures marks { (p : ℕ) → mark_of zone.new p ≡ mark_of zone.old p }
{
    for j in 0..zone.vars() + 1 {
        let bound = bound_between(input, declared, zone, i, j);
        zone.set_bound(i, j, bound);
    }
}

/// Sets the bounds, which are top's, to those with which a procedure starts.
fn set_bounds(zone: &mut Zone, input: &Zone, declared: u8)
    requires few { vars_of input.now + declared ≤ 16 }
    requires top { IsTop zone.old }
    requires count { vars_of zone.old ≤ 16 }
    ensures vars { vars_of zone.new ≡ vars_of zone.old }
    ensures not_bottom { NotBottom zone.new }
    ensures bounds { (p q : ℕ) → p ≤ vars_of zone.old → q ≤ vars_of zone.old → bound_of zone.new p q ≡ entered_bound input.now (vars_of input.now) declared p q }
    ensures marks { (p : ℕ) → mark_of zone.new p ≡ false }
{
    for i in 0..zone.vars() + 1 {
        set_row(zone, input, declared, i);
    }
}

/// Sets the input's marks.
fn set_marks(zone: &mut Zone, input: &Zone)
    requires not_bottom { NotBottom zone.old }
    requires inside { vars_of input.now ≤ vars_of zone.old }
    requires few { vars_of input.now ≤ 16 }
    requires unmarked { (p : ℕ) → mark_of zone.old p ≡ false }
    ensures vars { vars_of zone.new ≡ vars_of zone.old }
    ensures not_bottom { NotBottom zone.new }
    ensures bounds { (p q : ℕ) → bound_of zone.new p q ≡ bound_of zone.old p q }
    ensures marks { (p : ℕ) → mark_of zone.new p ≡ (if nat_le p (vars_of input.now) then mark_of input.now p else false) }
{
    for i in 1..input.vars() + 1 {
        if input.marked(i) {
            zone.set_mark(i);
        }
    }
}
