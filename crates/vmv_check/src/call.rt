ghost use Rattle.std.specs.Prelude.{◌≡◌, ◌↔◌, ◌≤◌, ℤ, length, IsTrue, IsNone, IfSome, OnOk};
ghost use Rattle.std.specs.List.{Contains};
ghost use Rattle.vmv_cond.specs.Cond.{Holds};
ghost use Rattle.vmv_zone.specs.declared.zone.Zone.{Zone};
ghost use Rattle.vmv_zone.specs.Zone.{vars_of, IsBelow, IsNormal, IsNormOf};
ghost use Rattle.vmv_step.specs.Zones.{zone_operand, AreInside, IsVariable};
ghost use Rattle.vmv_cert.specs.Walk.{Returns, IsMatch, IsReturned, AreAllowed, WalksCall};
ghost use Rattle.vmv_check.specs.Walker.{walk_of, way_at, HasParams, SomeMatch, IsListedByAll, IsAllowedSite, IsNarrowed};

use crate::sites::{is_name, lists};
use crate::walk::Walker;
use vmv_cert::{NamedSite, Reach, Row};
use vmv_cond::Cond;
use vmv_snapshot::{CodeOperand, ProcId, Slot};
use vmv_step::pass_into;
use vmv_zone::{Zone, ZoneOperand, ZoneValue};

/// The operand with a slot as the variable of its number.
pub(crate) fn zone_operand(operand: CodeOperand) -> ZoneOperand
    ensures { result ≡ zone_operand operand }
{
    match operand {
        CodeOperand::Lit(word) => ZoneOperand::Lit(word),
        CodeOperand::Var(slot) => ZoneOperand::Var(slot.0),
    }
}

/// The words that may be returned.
fn returned_words(reach: Reach) -> Cond
    ensures { (word : ℤ) → Holds result word ↔ Returns reach word }
{
    match reach {
        Reach::Bottom => Cond::of(1, 0, true),
        Reach::Value(cond) => cond,
    }
}

/// What may be returned, where another row says this too.
fn narrowed(found: Option<Cond>, reach: Reach) -> Cond
    ensures { IsNarrowed found reach result }
{
    let cond = returned_words(reach);
    match found {
        Some(before) => before.meet(cond),
        None => cond,
    }
}

impl Walker<'_> {
    /// Whether the row, one of the table's, holds for these arguments of a call of the helper of this number.
    fn is_match(&self, callee: ProcId, args: &Zone, row: &Row) -> bool
        requires callee { HasParams (walk_of self.now).program callee.0 (vars_of args.now) }
        requires one { Contains (walk_of self.now).rows row.now }
        ensures { IsTrue result ↔ IsMatch (walk_of self.now) callee.0 args.now row.now }
    {
        let name = self.snapshot.proc_name(callee);
        if !is_name(&row.proc, &name) {
            return false;
        }
        if row.input.vars() != args.vars() {
            return false;
        }
        args.below(&row.input)
    }

    /// What all matching rows say is returned, and `None` where no row matches.
    fn returned(&self, callee: ProcId, args: &Zone) -> Option<Cond>
        requires callee { HasParams (walk_of self.now).program callee.0 (vars_of args.now) }
        ensures none { IsNone result → SomeMatch (walk_of self.now) callee.0 args.now → ⊥ }
        ensures matched { IfSome result (λ cond. SomeMatch (walk_of self.now) callee.0 args.now) }
        ensures returned { IfSome result (IsReturned (walk_of self.now) callee.0 args.now) }
    {
        let mut found = None;
        for row in self.rows {
            if self.is_match(callee, args, row) {
                found = Some(narrowed(found, row.result));
            }
        }
        found
    }

    /// Whether the row, one of the table's, lists the site where it matches.
    fn is_listed(&self, callee: ProcId, args: &Zone, site: &NamedSite, row: &Row) -> bool
        requires callee { HasParams (walk_of self.now).program callee.0 (vars_of args.now) }
        requires one { Contains (walk_of self.now).rows row.now }
        ensures { IsTrue result ↔ (IsMatch (walk_of self.now) callee.0 args.now row.now → Contains row.now.unproved site.now) }
    {
        lists(row, site) || !self.is_match(callee, args, row)
    }

    /// Whether all matching rows list the site.
    fn all_list(&self, callee: ProcId, args: &Zone, site: &NamedSite) -> bool
        requires callee { HasParams (walk_of self.now).program callee.0 (vars_of args.now) }
        ensures { IsTrue result ↔ IsListedByAll (walk_of self.now) callee.0 args.now site.now }
    {
        for row in self.rows {
            if !self.is_listed(callee, args, site, row) {
                return false;
            }
        }
        true
    }

    /// Whether this row lists the site, or some matching row doesn't.
    fn is_allowed(&self, callee: ProcId, args: &Zone, site: &NamedSite) -> bool
        requires callee { HasParams (walk_of self.now).program callee.0 (vars_of args.now) }
        ensures { IsTrue result ↔ IsAllowedSite (walk_of self.now) callee.0 args.now site.now }
    {
        lists(self.row, site) || !self.all_list(callee, args, site)
    }

    /// Whether this row lists each site that all matching rows list, where one of these is given.
    fn allows(&self, callee: ProcId, args: &Zone, one: &Row) -> bool
        requires callee { HasParams (walk_of self.now).program callee.0 (vars_of args.now) }
        requires one { IsMatch (walk_of self.now) callee.0 args.now one.now }
        ensures { IsTrue result ↔ AreAllowed (walk_of self.now) callee.0 args.now }
    {
        for site in one.unproved.as_slice() {
            if !self.is_allowed(callee, args, site) {
                return false;
            }
        }
        true
    }

    /// Whether this row lists each site that all matching rows list, where some row matches.
    fn are_allowed(&self, callee: ProcId, args: &Zone) -> bool
        requires callee { HasParams (walk_of self.now).program callee.0 (vars_of args.now) }
        requires some { SomeMatch (walk_of self.now) callee.0 args.now }
        ensures { IsTrue result ↔ AreAllowed (walk_of self.now) callee.0 args.now }
    {
        for row in self.rows {
            if self.is_match(callee, args, row) {
                return self.allows(callee, args, row);
            }
        }
        unreachable!()
    }

    /// Walks over a call of a helper, whose number is `n`. The state of its arguments is the one that this needs.
    #[inline(never)]
    pub(crate) fn walk_call(
        &self,
        n: u32,
        to: Slot,
        callee: ProcId,
        args: &[CodeOperand],
        zone: &mut Zone,
    ) -> Result<(), u32>
        requires normal { IsNormal zone.old }
        requires few { vars_of zone.old ≤ 16 }
        requires to { IsVariable (vars_of zone.old) to }
        requires callee { HasParams (walk_of self.now).program callee.0 (length args.now) }
        requires args { length args.now ≤ 16 }
        requires inside { AreInside (vars_of zone.old) args.now }
        ensures way { WalksCall (walk_of self.now) n to callee args.now zone.old (way_at result zone.new) }
        ensures normal { OnOk result (IsNormal zone.new) }
        ensures vars { OnOk result (vars_of zone.new ≡ vars_of zone.old) }
    {
        if zone.is_bottom() {
            return Ok(());
        }
        let mut passed = *zone;
        pass_into(args, zone, &mut passed);
        let Some(cond) = self.returned(callee, &passed) else {
            return Err(n);
        };
        zone.store(to.0, ZoneValue::Within(cond));
        if !self.are_allowed(callee, &passed) {
            return Err(n);
        }
        Ok(())
    }
}
