ghost use Rattle.std.specs.Prelude.{◌≡◌, ◌↔◌, IsTrue, IfSome, IfNone};
ghost use Rattle.vmv_assumption.specs.Assumed.{cond_of};
ghost use Rattle.vmv_enough.specs.Plan.{IsPlan, AreJudged};
ghost use Rattle.vmv_enough.specs.Open.{IsFirstOpen, NoneOpen};
ghost use Rattle.vmv_enough.specs.OpenBy.{HasSite, Narrows, IsOpenBy, IsFirstBy, NoneBy};

use crate::plan::Plan;
use crate::sites::is_among;
use vmv_assumption::Assumption;
use vmv_cert::Sites;
use vmv_cond::Cond;
use vmv_demands::Demand;
use vmv_snapshot::{SiteId, Snapshot};
use vmv_tree::NamedSite;

/// Whether the sites have this one, its procedure being told by its number.
fn has_site(base: &Snapshot, sites: &[NamedSite], site: SiteId) -> bool
    ensures { IsTrue result ↔ HasSite base.now sites.now site }
{
    if site.proc.0 >= base.proc_count() {
        return false;
    }
    let named = NamedSite {
        proc: base.proc_name(site.proc),
        index: site.index,
    };
    is_among(sites, &named)
}

/// Whether two conditions are the same.
fn is_same_cond(cond: Cond, other: Cond) -> bool
    ensures { IsTrue result ↔ (cond ≡ other) }
{
    if cond.lo() != other.lo() {
        return false;
    }
    if cond.hi() != other.hi() {
        return false;
    }
    cond.zero_out() == other.zero_out()
}

/// Whether a demand leaves some of what its name may answer, and not all.
fn is_narrower(had: Cond, wanted: Cond) -> bool
    ensures { IsTrue result ↔ Narrows had wanted }
{
    let met = had.meet(wanted);
    if met.is_empty() {
        return false;
    }
    !is_same_cond(met, had)
}

/// Whether a demand is open, where these sites aren't provable.
fn is_open(base: &Snapshot, sites: &[NamedSite], assumed: &Assumption, demand: &Demand) -> bool
    ensures { IsTrue result ↔ IsOpenBy base.now sites.now (cond_of assumed.now) demand.now }
{
    has_site(base, sites, demand.site) && is_narrower(assumed.get(&demand.name), demand.cond)
}

/// The first of these demands that is open, where these sites aren't provable.
fn first_of(
    base: &Snapshot,
    sites: &[NamedSite],
    assumed: &Assumption,
    demands: &[Demand],
) -> Option<Demand>
    ensures some { IfSome result (IsFirstBy base.now sites.now (cond_of assumed.now) demands.now) }
    ensures none { IfNone result (NoneBy base.now sites.now (cond_of assumed.now) demands.now) }
{
    for demand in demands {
        if is_open(base, sites, assumed, demand) {
            return Some(*demand);
        }
    }
    None
}

/// The first open demand, by entry and place.
pub(crate) fn first_open(
    base: &Snapshot,
    plan: &Plan,
    assumed: &Assumption,
    judged: &[Sites],
) -> Option<Demand>
    requires plan { IsPlan base.now plan.now }
    requires judged { AreJudged base.now plan.now (cond_of assumed.now) judged.now }
    ensures some { IfSome result (IsFirstOpen base.now plan.now.ends (cond_of assumed.now)) }
    ensures none { IfNone result (NoneOpen base.now plan.now.ends (cond_of assumed.now)) }
{
    let subjects = plan.subjects.as_slice();
    for k in 0..subjects.len() {
        let demands = subjects[k].demands.as_slice();
        let found = first_of(base, judged[k].as_slice(), assumed, demands);
        if found.is_some() {
            return found;
        }
    }
    None
}
