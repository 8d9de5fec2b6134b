ghost use Rattle.std.specs.Prelude.{◌≡◌, ◌↔◌, ◌-◌, ◌^◌, ◌++◌, ◌∷◌, [], ℤ, ◌<ℤ◌, ◌≤ℤ◌, ◌+ℤ◌, ◌-ℤ◌, pos, negsuc, Some, true, map, slice_get, IfOk, OnOk};
ghost use Rattle.std.specs.List.{AllPairs, Contains};
ghost use Rattle.vmv_snapshot.specs.Procs.{is_entry};
ghost use Rattle.vmv_snapshot.specs.Resolution.{tree_of, procs_of};
ghost use Rattle.vmv_cert.specs.Thresholds.{around};
ghost use Rattle.vmv_thresholds.specs.Collect.{around_all};
ghost use Rattle.vmv_thresholds.specs.Thresholds.{AreThresholds};

use crate::seeds::seeds_of;
use std::alloc::{AllocError, Global};
use std::marker::Model;
use vmv_snapshot::{ProcId, Snapshot};
use vmv_tree::Ends;

/// Thresholds of an entry: the bounds that a state which is kept at one of its loops may have, in order. A contract sees
/// them as their list.
#[derive(Drop)]
pub struct Thresholds {
    list: Vec<i128>,
}

impl Model for Thresholds {
    ghost use Rattle.std.specs.Prelude.{ℤ, List};

    ghost Value = { List ℤ };

    ghost view = { λ t. t.list.items };
}

impl Thresholds {
    /// The thresholds of an entry of the snapshot, for these ends. It fails only for want of memory.
    pub fn of(
        alloc: Global,
        snapshot: &Snapshot,
        entry: ProcId,
        ends: &Ends,
    ) -> Result<Thresholds, AllocError>
        requires { slice_get (map is_entry (procs_of snapshot.now)) entry.0 ≡ Some true }
        ensures { IfOk result (λ ts. AreThresholds (tree_of snapshot.now) entry.0 ends.now ts) }
    {
        let seeds = seeds_of(alloc, snapshot, entry, ends.as_slice())?;
        let mut list = around_all(alloc, seeds.as_slice())?;
        put_in_order(&mut list);
        Ok(Thresholds { list })
    }

    /// The thresholds in order, each once.
    pub fn as_slice(&self) -> &[i128]
        ensures { result.now ≡ self.now }
    {
        self.list.as_slice()
    }
}

/// Adds a number and its neighbours.
fn add_near(list: &mut Vec<i128>, number: i128) -> Result<(), AllocError>
    requires low { negsuc (2 ^ 63 - 1) ≤ℤ number }
    requires high { number ≤ℤ pos (2 ^ 63) }
    ensures { OnOk result (list.new.items ≡ list.old.items ++ number ∷ (number -ℤ pos 1) ∷ (number +ℤ pos 1) ∷ []) }
{
    list.push(number)?;
    list.push(number - 1)?;
    list.push(number + 1)?;
    Ok(())
}

/// Adds a number and its neighbours, and the same of its negation.
fn add_around(list: &mut Vec<i128>, seed: i64) -> Result<(), AllocError>
    ensures { OnOk result (list.new.items ≡ list.old.items ++ around seed) }
{
    let number = seed as i128;
    add_near(list, number)?;
    add_near(list, -number)
}

/// The greatest threshold, and what stands around each seed.
fn around_all(alloc: Global, seeds: &[i64]) -> Result<Vec<i128>, AllocError>
    ensures { IfOk result (λ list. list.items ≡ pos (2 ^ 64 - 1) ∷ around_all seeds.now) }
{
    let mut list = Vec::new(alloc);
    list.push(u64::MAX as i128)?;
    for seed in seeds {
        add_around(&mut list, *seed)?;
    }
    Ok(list)
}

/// Puts numbers in order, and leaves each once.
fn put_in_order(list: &mut Vec<i128>)
    ensures rising { AllPairs (λ a b. a <ℤ b) list.new.items }
    ensures same { (t : ℤ) → Contains list.new.items t ↔ Contains list.old.items t }
{
    list.sort_unstable();
    list.dedup();
}
