ghost use Rattle.std.specs.Prelude.{◌≡◌, ◌≤◌, ◌<◌, ◌+◌, ◌/◌, ◌∷◌, ◌++◌, [], IfOk, OnOk, length, take};
ghost use Rattle.std.specs.List.{Contains};
ghost use Rattle.vmv_snapshot.specs.Procs.{outsides};
ghost use Rattle.vmv_snapshot.specs.Resolution.{Resolution, tree_of};
ghost use Rattle.vmv_proof_check.specs.Work.{IsCutFor, AreNamed, AreCuts};

use std::alloc::{AllocError, Global};
use vmv_assumption::Assumption;
use vmv_proof::Exclusion;
use vmv_snapshot::Snapshot;

/// What is assumed behind exclusions: the whole conditions, cut by these. An exclusion may count on any number of those before it,
/// so what is assumed is kept behind each 64.
#[derive(Drop)]
pub(crate) struct Cuts {
    /// Cut by all.
    pub(crate) last: Assumption,
    /// Cut by the first 0, 64, 128 and so on.
    pub(crate) kept: Vec<Assumption>,
}

impl Cuts {
    /// Behind no exclusion.
    pub(crate) fn new(alloc: Global, base: &Snapshot) -> Result<Cuts, AllocError>
        ensures { IfOk result (AreCuts base.now []) }
    {
        let last = Assumption::whole(alloc, base)?;
        let first = last.copy(alloc)?;
        let mut kept = Vec::new(alloc);
        kept.push(first)?;
        Ok(Cuts { last, kept })
    }

    /// Behind one more exclusion, before which these stand.
    pub(crate) fn add(
        &mut self,
        alloc: Global,
        before: &[Exclusion],
        x: &Exclusion,
    ) -> Result<(), AllocError>
        ensures { OnOk result ((base : Resolution) → AreCuts base before.now self.old → Contains (outsides (tree_of base)) x.now.name → AreCuts base (before.now ++ x.now ∷ []) self.new) }
    {
        let _held = self.last.cut(&x.name, x.piece);
        if before.len() % 64 == 63 {
            let last = self.last.copy(alloc)?;
            self.kept.push(last)?;
        }
        Ok(())
    }

    /// What is assumed behind the first exclusions, as many as `under`.
    pub(crate) fn behind(
        &self,
        alloc: Global,
        before: &[Exclusion],
        under: usize,
    ) -> Result<Assumption, AllocError>
        requires under { under ≤ length before.now }
        requires kept { length self.now.kept.items ≡ length before.now / 64 + 1 }
        ensures { IfOk result (λ held. (base : Resolution) → AreCuts base before.now self.now → AreNamed base before.now → IsCutFor base (take under before.now) held) }
    {
        let from = under / 64;
        let mut held = self.kept[from].copy(alloc)?;
        for i in from * 64..under {
            let x = &before[i];
            let _held = held.cut(&x.name, x.piece);
        }
        Ok(held)
    }
}
