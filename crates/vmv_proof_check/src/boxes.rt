ghost use Rattle.std.specs.Prelude.{◌≡◌, ◌≤◌, ℤ, ◌≤ℤ◌, length, neg_ℤ};
ghost use Rattle.vmv_zone.specs.declared.zone.Zone.{Zone};
ghost use Rattle.vmv_zone.specs.Zone.{vars_of, NotBottom, ChangesBound};
ghost use Rattle.vmv_cert.specs.Tables.{IsBoxState};

use vmv_snapshot::ParamBox;
use vmv_zone::Zone;

/// The state with the variable in this range.
fn with_range(zone: Zone, variable: u8, lo: i64, hi: i64) -> Zone
    requires not_bottom { NotBottom zone }
    requires from { 1 ≤ variable }
    requires to { variable ≤ vars_of zone }
    ensures { (half : Zone) × ChangesBound zone half variable 0 hi × ChangesBound half result 0 variable (neg_ℤ lo) }
{
    let half = zone.with_bound(variable, 0, hi as i128);
    half.with_bound(0, variable, -(lo as i128))
}

/// The state of a box: each parameter in its range.
pub(crate) fn box_state(within: &ParamBox) -> Zone
    requires few { length within.now ≤ 16 }
    ensures { IsBoxState within.now result }
{
    let ranges = within.ranges();
    let mut zone = Zone::top(ranges.len() as u8);
    for (i, range) in ranges.iter().enumerate() {
        zone = with_range(zone, i as u8 + 1, range.0, range.1);
    }
    zone
}
