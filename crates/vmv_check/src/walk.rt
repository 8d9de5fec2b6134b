ghost use Rattle.std.specs.Prelude.{◌≡◌, ◌↔◌, ◌+◌, ◌≤◌, ℕ, IsTrue, OnOk};
ghost use Rattle.vmv_snapshot.specs.Code.{plain, branch};
ghost use Rattle.vmv_snapshot.specs.View.{stmt_of, block_of};
ghost use Rattle.vmv_zone.specs.declared.zone.Zone.{Zone};
ghost use Rattle.vmv_zone.specs.Zone.{vars_of, IsBelow, IsNormal};
ghost use Rattle.vmv_step.specs.Steps.{IsSimpleInside, stepped};
ghost use Rattle.vmv_step.specs.Agree.{HasSite};
ghost use Rattle.vmv_cert.specs.Sizes.{statements, block_statements, loops, block_loops};
ghost use Rattle.vmv_cert.specs.Walk.{ListsOwn, IsAllowed, Walks, WalksAll};
ghost use Rattle.vmv_check.specs.Walker.{walk_of, way_at, IsReady, AreReady, HasKept, loop_of};

use crate::sites::lists;
use vmv_assumption::Assumption;
use vmv_cert::{NamedSite, Row};
use vmv_snapshot::{CodeRepeat, CodeStmt, CodeTest, Simple, Snapshot};
use vmv_step::{
    again_in_place, branch_in_place, head_in_place, leave_in_place, step_in_place, turn_in_place,
};
use vmv_zone::Zone;

/// What a walk of a row looks at.
#[derive(Drop)]
pub(crate) struct Walker<'a> {
    pub(crate) snapshot: &'a Snapshot,
    pub(crate) assumed: &'a Assumption,
    pub(crate) rows: &'a [Row],
    pub(crate) row: &'a Row,
}

/// Where a walk is: the number of the next statement, and how many loops were met.
#[derive(Drop)]
pub(crate) struct Place {
    pub(crate) step: u32,
    pub(crate) keep: usize,
}

impl Walker<'_> {
    /// Whether the row lists the site of this number in its own procedure.
    fn lists_own(&self, index: u32) -> bool
        ensures { IsTrue result ↔ ListsOwn (walk_of self.now).row index }
    {
        let proc = self.row.proc;
        lists(self.row, &NamedSite { proc, index })
    }

    /// Whether the row lists the site of the statement, where that has one.
    fn lists_site(&self, simple: &Simple) -> bool
        ensures { IsTrue result ↔ ((n : ℕ) → HasSite simple.now n → ListsOwn (walk_of self.now).row n) }
    {
        match simple {
            Simple::Set { .. } | Simple::Ask { .. } => true,
            Simple::Arith { site, .. } | Simple::Assert { site, .. } => self.lists_own(*site),
        }
    }

    /// Whether the row lists the statement's site, or that is proved.
    fn allows_step(&self, simple: &Simple, unproved: bool) -> bool
        ensures { (z : Zone) → IsTrue result ↔ IsAllowed (walk_of self.now).row simple.now (stepped z unproved) }
    {
        !unproved || self.lists_site(simple)
    }

    /// Walks over a simple statement, whose number is `n`.
    fn walk_simple(&self, simple: &Simple, n: u32, zone: &mut Zone) -> Result<(), u32>
        requires normal { IsNormal zone.old }
        requires few { vars_of zone.old ≤ 16 }
        requires inside { IsSimpleInside (vars_of zone.old) simple.now }
        ensures way { (k : ℕ) → Walks (walk_of self.now) n k (plain simple.now) zone.old (way_at result zone.new) }
        ensures normal { OnOk result (IsNormal zone.new) }
        ensures vars { OnOk result (vars_of zone.new ≡ vars_of zone.old) }
    {
        let unproved = step_in_place(simple, self.assumed, zone);
        if !self.allows_step(simple, unproved) {
            return Err(n);
        }
        Ok(())
    }

    /// Whether the first state of a loop's head is below the state that is kept there, and its site is listed or proved.
    fn allows_head(&self, repeat: &CodeRepeat, unproved: bool, first: &Zone, kept: &Zone) -> bool
        requires { vars_of first.now ≡ vars_of kept.now }
        ensures { IsTrue result ↔ ((IsTrue unproved → ListsOwn (walk_of self.now).row repeat.now.site) × IsBelow first.now kept.now) }
    {
        (!unproved || self.lists_own(repeat.site)) && first.below(kept)
    }

    /// Walks over a statement.
    #[cycle(walk)]
    #[tactic(auto, using(vmv_snapshot::specs::View::views))]
    fn walk_stmt(&self, stmt: &CodeStmt, place: &mut Place, zone: &mut Zone) -> Result<(), u32>
        requires normal { IsNormal zone.old }
        requires few { vars_of zone.old ≤ 16 }
        requires ready { IsReady (walk_of self.now).program (vars_of zone.old) (stmt_of stmt.now) }
        requires kept { HasKept (walk_of self.now).row (vars_of zone.old) (place.old.keep + loops (stmt_of stmt.now)) }
        requires steps { place.old.step + statements (stmt_of stmt.now) ≤ 2001 }
        ensures way { Walks (walk_of self.now) place.old.step place.old.keep (stmt_of stmt.now) zone.old (way_at result zone.new) }
        ensures normal { OnOk result (IsNormal zone.new) }
        ensures vars { OnOk result (vars_of zone.new ≡ vars_of zone.old) }
        ensures step { OnOk result (place.new.step ≡ place.old.step + statements (stmt_of stmt.now)) }
        ensures keep { OnOk result (place.new.keep ≡ place.old.keep + loops (stmt_of stmt.now)) }
    {
        let n = place.step;
        place.step += 1;
        match stmt {
            CodeStmt::Plain(simple) => self.walk_simple(simple, n, zone),
            CodeStmt::Help { to, callee, args } => {
                self.walk_call(n, *to, *callee, args.as_slice(), zone)
            }
            CodeStmt::If {
                test,
                first,
                second,
            } => self.walk_if(test, first.as_slice(), second.as_slice(), n, place, zone),
            CodeStmt::Repeat(repeat) => self.walk_repeat(repeat, n, place, zone),
        }
    }

    /// Walks over an `if`, whose number is `n`. The state in which its second part is walked is the one that this needs.
    #[cycle(walk)]
    #[inline(never)]
    fn walk_if(
        &self,
        test: &CodeTest,
        first: &[CodeStmt],
        second: &[CodeStmt],
        n: u32,
        place: &mut Place,
        zone: &mut Zone,
    ) -> Result<(), u32>
        requires normal { IsNormal zone.old }
        requires few { vars_of zone.old ≤ 16 }
        requires ready { IsReady (walk_of self.now).program (vars_of zone.old) (branch test.now (block_of first.now) (block_of second.now)) }
        requires kept { HasKept (walk_of self.now).row (vars_of zone.old) (place.old.keep + loops (branch test.now (block_of first.now) (block_of second.now))) }
        requires step { place.old.step ≡ n + 1 }
        requires steps { n + statements (branch test.now (block_of first.now) (block_of second.now)) ≤ 2001 }
        ensures way { Walks (walk_of self.now) n place.old.keep (branch test.now (block_of first.now) (block_of second.now)) zone.old (way_at result zone.new) }
        ensures normal { OnOk result (IsNormal zone.new) }
        ensures vars { OnOk result (vars_of zone.new ≡ vars_of zone.old) }
        ensures step { OnOk result (place.new.step ≡ n + statements (branch test.now (block_of first.now) (block_of second.now))) }
        ensures keep { OnOk result (place.new.keep ≡ place.old.keep + loops (branch test.now (block_of first.now) (block_of second.now))) }
    {
        let mut other = *zone;
        branch_in_place(test, zone, &mut other);
        self.walk_block(first, place, zone)?;
        self.walk_block(second, place, &mut other)?;
        zone.join_with(&other);
        Ok(())
    }

    /// Walks over a loop, whose number is `n`. The state of a turn is the one that this needs.
    #[cycle(walk)]
    #[inline(never)]
    fn walk_repeat(
        &self,
        repeat: &CodeRepeat,
        n: u32,
        place: &mut Place,
        zone: &mut Zone,
    ) -> Result<(), u32>
        requires normal { IsNormal zone.old }
        requires few { vars_of zone.old ≤ 16 }
        requires ready { IsReady (walk_of self.now).program (vars_of zone.old) (loop_of repeat.now) }
        requires kept { HasKept (walk_of self.now).row (vars_of zone.old) (place.old.keep + loops (loop_of repeat.now)) }
        requires step { place.old.step ≡ n + 1 }
        requires steps { n + statements (loop_of repeat.now) ≤ 2001 }
        ensures way { Walks (walk_of self.now) n place.old.keep (loop_of repeat.now) zone.old (way_at result zone.new) }
        ensures normal { OnOk result (IsNormal zone.new) }
        ensures vars { OnOk result (vars_of zone.new ≡ vars_of zone.old) }
        ensures step { OnOk result (place.new.step ≡ n + statements (loop_of repeat.now)) }
        ensures keep { OnOk result (place.new.keep ≡ place.old.keep + loops (loop_of repeat.now)) }
    {
        let kept = &self.row.keeps.as_slice()[place.keep];
        place.keep += 1;
        let unproved = head_in_place(repeat, zone);
        let allowed = self.allows_head(repeat, unproved, zone, kept);
        zone.copy_from(kept);
        zone.normalize();
        let mut turned = *zone;
        turn_in_place(repeat, &mut turned);
        leave_in_place(repeat, zone);
        if !allowed {
            return Err(n);
        }
        self.walk_block(repeat.body.as_slice(), place, &mut turned)?;
        again_in_place(repeat, &mut turned);
        if !turned.below(kept) {
            return Err(n);
        }
        Ok(())
    }

    /// Walks over statements in a row.
    #[cycle(walk)]
    pub(crate) fn walk_block(
        &self,
        block: &[CodeStmt],
        place: &mut Place,
        zone: &mut Zone,
    ) -> Result<(), u32>
        requires normal { IsNormal zone.old }
        requires few { vars_of zone.old ≤ 16 }
        requires ready { AreReady (walk_of self.now).program (vars_of zone.old) (block_of block.now) }
        requires kept { HasKept (walk_of self.now).row (vars_of zone.old) (place.old.keep + block_loops (block_of block.now)) }
        requires steps { place.old.step + block_statements (block_of block.now) ≤ 2001 }
        ensures way { WalksAll (walk_of self.now) place.old.step place.old.keep (block_of block.now) zone.old (way_at result zone.new) }
        ensures normal { OnOk result (IsNormal zone.new) }
        ensures vars { OnOk result (vars_of zone.new ≡ vars_of zone.old) }
        ensures step { OnOk result (place.new.step ≡ place.old.step + block_statements (block_of block.now)) }
        ensures keep { OnOk result (place.new.keep ≡ place.old.keep + block_loops (block_of block.now)) }
    {
        for stmt in block {
            self.walk_stmt(stmt, place, zone)?;
        }
        Ok(())
    }
}
