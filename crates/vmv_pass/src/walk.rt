ghost use Rattle.std.specs.Prelude.{◌≡◌, ◌+◌, ◌≤◌, ℕ, Bool, List, length, map};
ghost use Rattle.std.specs.List.{All};
ghost use Rattle.vmv_snapshot.specs.Code.{plain, branch};
ghost use Rattle.vmv_snapshot.specs.View.{stmt_of, block_of};
ghost use Rattle.vmv_zone.specs.declared.zone.Zone.{Zone};
ghost use Rattle.vmv_zone.specs.Zone.{vars_of, IsNormal};
ghost use Rattle.vmv_step.specs.Steps.{IsSimpleInside};
ghost use Rattle.vmv_cert.specs.Sizes.{loops, block_loops};
ghost use Rattle.vmv_check.specs.Walker.{IsReady, AreReady, loop_of};
ghost use Rattle.vmv_pass.specs.Callees.{callees, block_callees};
ghost use Rattle.vmv_pass.specs.Moves.{given_of, lists, Moves, MovesAll, AreCalled, HasKeeps, HasSites, HaveSites};
ghost use Rattle.vmv_pass.specs.Told.{AreTold};
ghost use Rattle.vmv_pass.specs.Upper.{AreScale};

use crate::call::pass_call;
use crate::keep::{flag_site, raise_keep};
use crate::place::{Mark, Place};
use crate::steps::Steps;
use std::sync::ledger::Ledger;
use vmv_snapshot::{CodeRepeat, CodeStmt, CodeTest, Simple};
use vmv_step::{
    again_in_place, branch_in_place, head_in_place, leave_in_place, step_in_place, turn_in_place,
};
use vmv_zone::Zone;

/// Passes over a simple statement.
fn pass_simple(at: &Place<'_>, simple: &Simple, unproved: &mut [bool], zone: &mut Zone)
    requires normal { IsNormal zone.old }
    requires few { vars_of zone.old ≤ 16 }
    requires inside { IsSimpleInside (vars_of zone.old) simple.now }
    requires sites { HasSites (length unproved.old) (plain simple.now) }
    ensures moves { (k c : ℕ) (keeps inputs : List Zone) (raised looped : Bool) (steps : ℕ) → Moves (given_of at.now) k c (plain simple.now) zone.old (lists keeps inputs unproved.old raised looped steps) zone.new (lists keeps inputs unproved.new raised looped steps) }
    ensures normal { IsNormal zone.new }
    ensures vars { vars_of zone.new ≡ vars_of zone.old }
{
    let flag = step_in_place(simple, at.assumed, zone);
    flag_site(simple, flag, unproved);
}

/// Passes over a statement.
#[cycle(pass)]
#[tactic(auto, using(vmv_snapshot::specs::View::views))]
fn pass_stmt<L: Ledger>(
    at: &Place<'_>,
    stmt: &CodeStmt,
    keeps: &mut [Zone],
    inputs: &mut [Zone],
    risen: &mut [bool],
    unproved: &mut [bool],
    mark: &mut Mark,
    steps: &mut Steps<L>,
    passed: &mut Zone,
    zone: &mut Zone,
)
    requires normal { IsNormal zone.old }
    requires few { vars_of zone.old ≤ 16 }
    requires ready { IsReady at.now.snapshot.now (vars_of zone.old) (stmt_of stmt.now) }
    requires sites { HasSites (length unproved.old) (stmt_of stmt.now) }
    requires kept { HasKeeps (vars_of zone.old) (mark.old.keep + loops (stmt_of stmt.now)) keeps.old }
    requires called { AreCalled at.now.snapshot.now (map vars_of inputs.old) mark.old.call (callees (stmt_of stmt.now)) }
    requires calls { mark.old.call + length (callees (stmt_of stmt.now)) ≤ length inputs.old }
    requires results { length at.now.results.now ≡ length inputs.old }
    requires scale { AreScale at.now.thresholds.now }
    ensures moves { Moves (given_of at.now) mark.old.keep mark.old.call (stmt_of stmt.now) zone.old (lists keeps.old inputs.old unproved.old mark.old.raised mark.old.looped steps.old) zone.new (lists keeps.new inputs.new unproved.new mark.new.raised mark.new.looped steps.new) }
    ensures normal { IsNormal zone.new }
    ensures vars { vars_of zone.new ≡ vars_of zone.old }
    ensures over { All (λ z. vars_of z ≡ vars_of zone.old) keeps.new }
    ensures sizes { map vars_of inputs.new ≡ map vars_of inputs.old }
    ensures told { AreTold inputs.old risen.old inputs.new risen.new }
    ensures keep { mark.new.keep ≡ mark.old.keep + loops (stmt_of stmt.now) }
    ensures call { mark.new.call ≡ mark.old.call + length (callees (stmt_of stmt.now)) }
{
    match stmt {
        CodeStmt::Plain(simple) => pass_simple(at, simple, unproved, zone),
        CodeStmt::Help { to, args, .. } => {
            let c = mark.call;
            mark.call += 1;
            pass_call(
                at,
                *to,
                args.as_slice(),
                c,
                inputs,
                risen,
                &mut mark.raised,
                passed,
                zone,
            )
        }
        CodeStmt::If {
            test,
            first,
            second,
        } => pass_if(
            at,
            test,
            first.as_slice(),
            second.as_slice(),
            keeps,
            inputs,
            risen,
            unproved,
            mark,
            steps,
            passed,
            zone,
        ),
        CodeStmt::Repeat(repeat) => {
            pass_repeat(
                at, repeat, keeps, inputs, risen, unproved, mark, steps, passed, zone,
            )
        }
    }
}

/// Passes over an `if`. The state in which its second part is passed over is the one that this needs.
#[cycle(pass)]
#[inline(never)]
fn pass_if<L: Ledger>(
    at: &Place<'_>,
    test: &CodeTest,
    first: &[CodeStmt],
    second: &[CodeStmt],
    keeps: &mut [Zone],
    inputs: &mut [Zone],
    risen: &mut [bool],
    unproved: &mut [bool],
    mark: &mut Mark,
    steps: &mut Steps<L>,
    passed: &mut Zone,
    zone: &mut Zone,
)
    requires normal { IsNormal zone.old }
    requires few { vars_of zone.old ≤ 16 }
    requires ready { IsReady at.now.snapshot.now (vars_of zone.old) (branch test.now (block_of first.now) (block_of second.now)) }
    requires sites { HasSites (length unproved.old) (branch test.now (block_of first.now) (block_of second.now)) }
    requires kept { HasKeeps (vars_of zone.old) (mark.old.keep + loops (branch test.now (block_of first.now) (block_of second.now))) keeps.old }
    requires called { AreCalled at.now.snapshot.now (map vars_of inputs.old) mark.old.call (callees (branch test.now (block_of first.now) (block_of second.now))) }
    requires calls { mark.old.call + length (callees (branch test.now (block_of first.now) (block_of second.now))) ≤ length inputs.old }
    requires results { length at.now.results.now ≡ length inputs.old }
    requires scale { AreScale at.now.thresholds.now }
    ensures moves { Moves (given_of at.now) mark.old.keep mark.old.call (branch test.now (block_of first.now) (block_of second.now)) zone.old (lists keeps.old inputs.old unproved.old mark.old.raised mark.old.looped steps.old) zone.new (lists keeps.new inputs.new unproved.new mark.new.raised mark.new.looped steps.new) }
    ensures normal { IsNormal zone.new }
    ensures vars { vars_of zone.new ≡ vars_of zone.old }
    ensures over { All (λ z. vars_of z ≡ vars_of zone.old) keeps.new }
    ensures sizes { map vars_of inputs.new ≡ map vars_of inputs.old }
    ensures told { AreTold inputs.old risen.old inputs.new risen.new }
    ensures keep { mark.new.keep ≡ mark.old.keep + loops (branch test.now (block_of first.now) (block_of second.now)) }
    ensures call { mark.new.call ≡ mark.old.call + length (callees (branch test.now (block_of first.now) (block_of second.now))) }
{
    let mut other = *zone;
    branch_in_place(test, zone, &mut other);
    pass_block(
        at, first, keeps, inputs, risen, unproved, mark, steps, passed, zone,
    );
    pass_block(
        at, second, keeps, inputs, risen, unproved, mark, steps, passed, &mut other,
    );
    zone.join_with(&other);
}

/// Passes over a loop.
#[cycle(pass)]
fn pass_repeat<L: Ledger>(
    at: &Place<'_>,
    repeat: &CodeRepeat,
    keeps: &mut [Zone],
    inputs: &mut [Zone],
    risen: &mut [bool],
    unproved: &mut [bool],
    mark: &mut Mark,
    steps: &mut Steps<L>,
    passed: &mut Zone,
    zone: &mut Zone,
)
    requires normal { IsNormal zone.old }
    requires few { vars_of zone.old ≤ 16 }
    requires ready { IsReady at.now.snapshot.now (vars_of zone.old) (loop_of repeat.now) }
    requires sites { HasSites (length unproved.old) (loop_of repeat.now) }
    requires kept { HasKeeps (vars_of zone.old) (mark.old.keep + loops (loop_of repeat.now)) keeps.old }
    requires called { AreCalled at.now.snapshot.now (map vars_of inputs.old) mark.old.call (callees (loop_of repeat.now)) }
    requires calls { mark.old.call + length (callees (loop_of repeat.now)) ≤ length inputs.old }
    requires results { length at.now.results.now ≡ length inputs.old }
    requires scale { AreScale at.now.thresholds.now }
    ensures moves { Moves (given_of at.now) mark.old.keep mark.old.call (loop_of repeat.now) zone.old (lists keeps.old inputs.old unproved.old mark.old.raised mark.old.looped steps.old) zone.new (lists keeps.new inputs.new unproved.new mark.new.raised mark.new.looped steps.new) }
    ensures normal { IsNormal zone.new }
    ensures vars { vars_of zone.new ≡ vars_of zone.old }
    ensures over { All (λ z. vars_of z ≡ vars_of zone.old) keeps.new }
    ensures sizes { map vars_of inputs.new ≡ map vars_of inputs.old }
    ensures told { AreTold inputs.old risen.old inputs.new risen.new }
    ensures keep { mark.new.keep ≡ mark.old.keep + loops (loop_of repeat.now) }
    ensures call { mark.new.call ≡ mark.old.call + length (callees (loop_of repeat.now)) }
{
    let k = mark.keep;
    mark.keep += 1;
    let flag = head_in_place(repeat, zone);
    unproved[repeat.site as usize - 1] = flag;
    raise_keep(
        at,
        k,
        zone,
        keeps,
        &mut mark.raised,
        &mut mark.looped,
        steps,
    );
    zone.copy_from(&keeps[k]);
    zone.normalize();
    turn_in_place(repeat, zone);
    pass_block(
        at,
        repeat.body.as_slice(),
        keeps,
        inputs,
        risen,
        unproved,
        mark,
        steps,
        passed,
        zone,
    );
    again_in_place(repeat, zone);
    raise_keep(
        at,
        k,
        zone,
        keeps,
        &mut mark.raised,
        &mut mark.looped,
        steps,
    );
    zone.copy_from(&keeps[k]);
    zone.normalize();
    leave_in_place(repeat, zone);
}

/// Passes over statements in a row.
#[cycle(pass)]
pub(crate) fn pass_block<L: Ledger>(
    at: &Place<'_>,
    block: &[CodeStmt],
    keeps: &mut [Zone],
    inputs: &mut [Zone],
    risen: &mut [bool],
    unproved: &mut [bool],
    mark: &mut Mark,
    steps: &mut Steps<L>,
    passed: &mut Zone,
    zone: &mut Zone,
)
    requires normal { IsNormal zone.old }
    requires few { vars_of zone.old ≤ 16 }
    requires ready { AreReady at.now.snapshot.now (vars_of zone.old) (block_of block.now) }
    requires sites { HaveSites (length unproved.old) (block_of block.now) }
    requires kept { HasKeeps (vars_of zone.old) (mark.old.keep + block_loops (block_of block.now)) keeps.old }
    requires called { AreCalled at.now.snapshot.now (map vars_of inputs.old) mark.old.call (block_callees (block_of block.now)) }
    requires calls { mark.old.call + length (block_callees (block_of block.now)) ≤ length inputs.old }
    requires results { length at.now.results.now ≡ length inputs.old }
    requires scale { AreScale at.now.thresholds.now }
    ensures moves { MovesAll (given_of at.now) mark.old.keep mark.old.call (block_of block.now) zone.old (lists keeps.old inputs.old unproved.old mark.old.raised mark.old.looped steps.old) zone.new (lists keeps.new inputs.new unproved.new mark.new.raised mark.new.looped steps.new) }
    ensures normal { IsNormal zone.new }
    ensures vars { vars_of zone.new ≡ vars_of zone.old }
    ensures over { All (λ z. vars_of z ≡ vars_of zone.old) keeps.new }
    ensures sizes { map vars_of inputs.new ≡ map vars_of inputs.old }
    ensures told { AreTold inputs.old risen.old inputs.new risen.new }
    ensures keep { mark.new.keep ≡ mark.old.keep + block_loops (block_of block.now) }
    ensures call { mark.new.call ≡ mark.old.call + length (block_callees (block_of block.now)) }
{
    for stmt in block {
        pass_stmt(
            at, stmt, keeps, inputs, risen, unproved, mark, steps, passed, zone,
        );
    }
}
