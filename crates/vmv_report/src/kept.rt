ghost use Rattle.std.specs.Prelude.{◌≡◌};
ghost use Rattle.std.specs.Arc.{arc_value};
ghost use Rattle.vmv_need.specs.Needed.{IsNeeded};
ghost use Rattle.vmv_report.specs.Baselines.{IsEnoughFor, IsBaseline};

use std::marker::Model;
use std::sync::Arc;
use vmv_assumption::Assumption;
use vmv_need::Needed;
use vmv_snapshot::Snapshot;

/// A base, and what a review finds of it whatever the revision is. Its type keeps that this was found of the base.
#[derive(Drop)]
pub struct Baseline {
    base: Arc<Snapshot>,
    needed: Needed,
    enough: Option<Assumption>,
}

impl Model for Baseline {
    ghost use Rattle.std.specs.Arc.{arc_value};
    ghost use Rattle.vmv_report.specs.Baselines.{Based, IsBaseline};
    ghost use Rattle.std.specs.Coded.{codes};
    ghost use Rattle.vmv_tree.specs.contracts.tree.Stmt as stmt;
    ghost use Rattle.vmv_snapshot.specs.contracts.code.CodeStmt as code;

    ghost Value = { Based };

    ghost coded = { Prim.hlevel (codes, stmt.the_row.coded, code.the_row.coded) };

    ghost view = { λ b. record { base = arc_value b.base; needed = b.needed; enough = b.enough } };

    ghost invariant = { λ b. IsBaseline (record { base = arc_value b.base; needed = b.needed; enough = b.enough }) };
}

impl Baseline {
    /// A base with what is necessary for it, and what suffices.
    pub(crate) fn of(base: Arc<Snapshot>, needed: Needed, enough: Option<Assumption>) -> Baseline
        requires needed { IsNeeded (arc_value base) needed }
        requires enough { IsEnoughFor (arc_value base) needed enough }
        ensures { result.base ≡ arc_value base }
    {
        let _ = base.program();
        Baseline {
            base,
            needed,
            enough,
        }
    }

    /// The base.
    pub fn base(&self) -> &Snapshot
        ensures base { result.now ≡ self.now.base }
        ensures found { IsBaseline self.now }
    {
        &self.base
    }

    /// What is necessary for the base to be safe.
    pub fn needed(&self) -> &Needed
        ensures needed { result.now ≡ self.now.needed }
        ensures found { IsBaseline self.now }
    {
        &self.needed
    }

    /// Conditions for which the base is safe, where there are some.
    pub fn enough(&self) -> &Option<Assumption>
        ensures enough { result.now ≡ self.now.enough }
        ensures found { IsBaseline self.now }
    {
        &self.enough
    }
}
