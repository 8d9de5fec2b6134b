ghost use Rattle.std.specs.Prelude.{◌≡◌, [], ◌∷◌, true, Some, map, slice_get, IsTrue, ◌↔◌, IfOk, OnOk};
ghost use Rattle.vmv_snapshot.specs.Procs.{is_entry};
ghost use Rattle.vmv_snapshot.specs.Resolution.{procs_of};
ghost use Rattle.vmv_assumption.specs.Assumed.{cond_of};
ghost use Rattle.vmv_enough.specs.Probes.{CanMiss, of_mode, of_box, tries, AreProbes};
ghost use Rattle.vmv_enough.specs.Kept.{Adds};

use crate::pick::nearest_missing;
use crate::probe::{Mode, Probe};
use sqlite_items::Items;
use std::alloc::{AllocError, Global};
use vmv_assumption::Assumption;
use vmv_back::boxes;
use vmv_demands::{Demand, demands};
use vmv_snapshot::{ParamBox, ProcId, Snapshot};

/// Probes, in order.
pub(crate) type Probes = Items<Probe>;

/// Whether the name of the demand that is missed may answer a word that misses it.
fn can_miss(enough: &Assumption, missed: &Option<Demand>) -> bool
    ensures { IsTrue result ↔ CanMiss (cond_of enough.now) missed.now }
{
    match missed {
        None => true,
        Some(demand) => nearest_missing(enough.get(&demand.name), demand).is_some(),
    }
}

/// Adds a probe, unless it can't miss its demand or there are 1,000.
fn add(probes: &mut Probes, enough: &Assumption, probe: Probe) -> Result<(), AllocError>
    ensures { OnOk result (Adds (cond_of enough.now) (probe ∷ []) probes.old probes.new) }
{
    if !can_miss(enough, &probe.missed) {
        return Ok(());
    }
    if probes.len() < 1000 {
        probes.push(probe)?;
        return Ok(());
    }
    Ok(())
}

/// Adds the probes of a box and a mode.
fn add_mode(
    probes: &mut Probes,
    enough: &Assumption,
    demands: &[Demand],
    within: &ParamBox,
    mode: Mode,
) -> Result<(), AllocError>
    ensures { OnOk result (Adds (cond_of enough.now) (of_mode demands.now within.now mode) probes.old probes.new) }
{
    let first = Probe {
        within: *within,
        mode,
        missed: None,
    };
    add(probes, enough, first)?;
    for demand in demands {
        let probe = Probe {
            within: *within,
            mode,
            missed: Some(*demand),
        };
        add(probes, enough, probe)?;
    }
    Ok(())
}

/// Adds the probes of a box.
fn add_box(
    probes: &mut Probes,
    enough: &Assumption,
    demands: &[Demand],
    within: &ParamBox,
) -> Result<(), AllocError>
    ensures { OnOk result (Adds (cond_of enough.now) (of_box demands.now within.now) probes.old probes.new) }
{
    add_mode(probes, enough, demands, within, Mode::Least)?;
    add_mode(probes, enough, demands, within, Mode::Greatest)?;
    add_mode(probes, enough, demands, within, Mode::Nearest)?;
    Ok(())
}

/// Adds the probes of these boxes.
fn add_boxes(
    probes: &mut Probes,
    enough: &Assumption,
    demands: &[Demand],
    boxes: &[ParamBox],
) -> Result<(), AllocError>
    ensures { OnOk result (Adds (cond_of enough.now) (tries boxes.now demands.now) probes.old probes.new) }
{
    for within in boxes {
        add_box(probes, enough, demands, within)?;
    }
    Ok(())
}

/// The probes of an entry: by box, by mode and by the demand that is missed, the first 1,000.
pub(crate) fn probes_of(
    alloc: Global,
    revision: &Snapshot,
    entry: ProcId,
    enough: &Assumption,
) -> Result<Probes, AllocError>
    requires { slice_get (map is_entry (procs_of revision.now)) entry.0 ≡ Some true }
    ensures { IfOk result (AreProbes revision.now entry.0 (cond_of enough.now)) }
{
    let boxes = boxes(alloc, revision, entry)?;
    let demands = demands(alloc, revision, entry)?;
    let mut probes = Probes::new(alloc);
    add_boxes(&mut probes, enough, demands.as_slice(), boxes.as_slice())?;
    Ok(probes)
}
