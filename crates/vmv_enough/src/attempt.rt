ghost use Rattle.std.specs.Prelude.{◌≡◌, ◌≢◌, ◌≤ℤ◌, ◌<◌, ℤ, Some, List, length, map, slice_get, IfOk};
ghost use Rattle.std.specs.List.{All};
ghost use Rattle.vmv_tree.specs.declared.tree.Param.{Param as Parameter};
ghost use Rattle.vmv_tree.specs.Words.{IsWord};
ghost use Rattle.vmv_cond.specs.Cond.{Holds, IsEmpty};
ghost use Rattle.vmv_snapshot.specs.Procs.{params_of};
ghost use Rattle.vmv_snapshot.specs.Resolution.{procs_of};
ghost use Rattle.vmv_assumption.specs.Assumed.{cond_of};
ghost use Rattle.vmv_enough.specs.Enough.{NoneEmpty};
ghost use Rattle.vmv_enough.specs.Probes.{CanMiss, Misses, IsAnswer};
ghost use Rattle.vmv_enough.specs.Picks.{IsPick};
ghost use Rattle.vmv_enough.specs.declared.probe.Mode.TheVariants.{Nearest};
ghost use Rattle.vmv_enough.specs.Tried.{IsReady, ArePicks, AreAnswers, IsWitnessOf, IsTried};

use crate::pick::{nearest_missing, pick, pick_in_range};
use crate::probe::{Mode, Probe};
use crate::sites::is_same;
use std::alloc::{AllocError, Global};
use vmv_assumption::Assumption;
use vmv_cond::Cond;
use vmv_demands::Demand;
use vmv_run::{Constant, Outcome, constant};
use vmv_snapshot::{ProcId, SiteId, Snapshot};
use vmv_tree::{Name, NamedSite, Param};
use vmv_witness::{ParamValue, Values, Witness};

/// What a name answers where a demand is missed.
fn missing(mode: Mode, cond: Cond, demand: &Demand, name: &Name) -> i64
    requires nonempty { ¬ IsEmpty cond }
    requires can_miss { name.now ≡ demand.now.name → (w : ℤ) × Misses cond demand.now w }
    ensures word { IsWord result }
    ensures there { name.now ≡ demand.now.name → IsPick Nearest (Misses cond demand.now) result }
    ensures elsewhere { name.now ≢ demand.now.name → IsPick mode (Holds cond) result }
{
    if !is_same(name, &demand.name) {
        return pick(mode, cond);
    }
    match nearest_missing(cond, demand) {
        Some(word) => word,
        None => 0,
    }
}

/// What a probe has a name answer.
fn answer(enough: &Assumption, probe: &Probe, name: &Name) -> i64
    requires nonempty { ¬ IsEmpty (cond_of enough.now name.now) }
    requires can_miss { CanMiss (cond_of enough.now) probe.now.missed }
    ensures word { IsWord result }
    ensures answer { IsAnswer (cond_of enough.now) probe.now.mode probe.now.missed name.now result }
{
    let cond = enough.get(name);
    match &probe.missed {
        Some(demand) => missing(probe.mode, cond, demand, name),
        None => pick(probe.mode, cond),
    }
}

/// What a probe has each of these names answer.
fn answers(
    alloc: Global,
    enough: &Assumption,
    probe: &Probe,
    names: &[Name],
) -> Result<Vec<i64>, AllocError>
    requires nonempty { All (λ name. ¬ IsEmpty (cond_of enough.now name)) names.now }
    requires can_miss { CanMiss (cond_of enough.now) probe.now.missed }
    ensures { IfOk result (λ values. AreAnswers (cond_of enough.now) probe.now names.now values.items) }
{
    let mut values = Vec::new(alloc);
    for name in names {
        values.push(answer(enough, probe, name))?;
    }
    Ok(values)
}

/// The words that the mode picks in these ranges.
fn words(alloc: Global, mode: Mode, ranges: &[(i64, i64)]) -> Result<Vec<i64>, AllocError>
    requires { All (λ range. range.0 ≤ℤ range.1) ranges.now }
    ensures { IfOk result (λ words. ArePicks mode ranges.now words.items) }
{
    let mut words = Vec::new(alloc);
    for range in ranges {
        words.push(pick_in_range(mode, *range))?;
    }
    Ok(words)
}

/// The parameters with their words.
fn values_of(alloc: Global, params: &[Param], words: &[i64]) -> Result<Values, AllocError>
    requires { length words.now ≡ length params.now }
    ensures names { IfOk result (λ values. map (λ v. v.name) values ≡ map (λ p. p.name) params.now) }
    ensures words { IfOk result (λ values. map (λ v. v.value) values ≡ words.now) }
{
    let mut values = Values::new(alloc);
    for i in 0..params.len() {
        values.push(ParamValue {
            name: params[i].name,
            value: words[i],
        })?;
    }
    Ok(values)
}

/// The witness of a run of an entry on these words that fails at this site.
fn witness_of(
    alloc: Global,
    revision: &Snapshot,
    entry: ProcId,
    words: &[i64],
    run: Constant,
    site: SiteId,
) -> Result<Witness, AllocError>
    requires entry { entry.0 < length (procs_of revision.now) }
    requires site { site.proc.0 < length (procs_of revision.now) }
    requires words { (params : List Parameter) → slice_get (map params_of (procs_of revision.now)) entry.0 ≡ Some params → length words.now ≡ length params }
    ensures { IfOk result (IsWitnessOf revision.now entry.0 words.now run site) }
{
    let params = revision.params(entry).as_slice();
    let values = values_of(alloc, params, words)?;
    let Constant { answers, .. } = run;
    Ok(Witness {
        entry: revision.proc_name(entry),
        params: values,
        answers,
        site: NamedSite {
            proc: revision.proc_name(site.proc),
            index: site.index,
        },
    })
}

/// Tries an entry on a probe: the run of the probe, where it fails.
pub(crate) fn attempt(
    alloc: Global,
    revision: &Snapshot,
    entry: ProcId,
    enough: &Assumption,
    probe: &Probe,
) -> Result<Option<Witness>, AllocError>
    requires ready { IsReady revision.now entry.0 (cond_of enough.now) probe.now }
    requires nonempty { NoneEmpty revision.now (cond_of enough.now) }
    ensures { IfOk result (IsTried revision.now entry.0 (cond_of enough.now) probe.now) }
{
    let _ = revision.program();
    let words = words(alloc, probe.mode, probe.within.ranges())?;
    let values = answers(alloc, enough, probe, revision.outsides())?;
    let run = constant(alloc, revision, entry, words.as_slice(), values.as_slice())?;
    match run.outcome {
        Outcome::Fail(site) => Ok(Some(witness_of(
            alloc,
            revision,
            entry,
            words.as_slice(),
            run,
            site,
        )?)),
        _ => Ok(None),
    }
}
