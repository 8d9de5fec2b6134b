ghost use Rattle.std.specs.Prelude.{◌≡◌, ◌+◌, ◌≤◌, ◌⊎◌, true, false, IfOk, OnOk, OnErr, Ok};
ghost use Rattle.vmv_edge.specs.Outside.{Rose};
ghost use Rattle.vmv_serve.specs.Serves.{Seen, Stored};
ghost use Rattle.vmv_serve.specs.Services.{ServesLinks, ServesNext, turns_of};

use std::alloc::Global;
use vmv_desk::Desk;
use vmv_door::Door;
use vmv_edge::Failed;
use vmv_http::serve_one;
use vmv_keeper::{Judge, Keeper};

/// Takes the next link, serves it and gives it back, whatever its end was. It says whether there was one.
fn serve_next<D: Door, K: Keeper, J: Judge>(
    alloc: Global,
    door: &mut D,
    desk: &mut Desk<K>,
    judge: &J,
) -> Result<bool, Failed>
    ensures given { IfOk result (λ more. D.given door.new ≡ D.given door.old + turns_of more) }
    ensures given_back { IfOk result (λ more. D.given_back door.new ≡ D.given_back door.old + turns_of more) }
    ensures ended { result ≡ Ok false → (D.has_ended door.new ≡ true) × (D.told door.new ≡ D.told door.old) × (desk.new ≡ desk.old) }
    ensures refused { OnErr result ((D.given door.new ≡ D.given door.old) × (D.given_back door.new ≡ D.given_back door.old) × (D.told door.new ≡ D.told door.old) × (desk.new ≡ desk.old)) }
    ensures listens { D.is_listening door.new ≡ D.is_listening door.old }
    ensures failed { OnErr result (Rose (D.fault_count door.old) (D.fault_count door.new)) }
    ensures stands { OnOk result (D.fault_count door.new ≡ D.fault_count door.old) }
    ensures served { result ≡ Ok true → ServesNext (J.inspected judge.now) (J.compared judge.now) ((keeper : K) → K.fault_count keeper ≡ 0)
        (λ link. record { input = D.Link.input link; written = D.Link.written link; faults = D.Link.fault_count link })
        (record { rows = K.told desk.old; faults = K.fault_count desk.old }) (record { rows = K.told desk.new; faults = K.fault_count desk.new }) (D.told door.old) (D.told door.new) }
{
    let Some(mut link) = door.next()? else {
        return Ok(false);
    };
    serve_one(alloc, &mut link, desk, judge);
    door.give_back(link);
    Ok(true)
}

/// How links that were taken came to an end, after so many of them.
#[derive(Clone, Copy, PartialEq, Eq, Debug, Drop)]
pub(crate) struct Taken {
    /// How many links the door gave.
    pub(crate) count: u32,
    /// Whether a call of the door failed behind the last of them.
    pub(crate) failed: bool,
}

/// Serves links until there were so many of them, or the door has ended, or it fails.
pub(crate) fn serve_links<D: Door, K: Keeper, J: Judge>(
    alloc: Global,
    count: u32,
    door: &mut D,
    desk: &mut Desk<K>,
    judge: &J,
) -> Taken
    ensures within { result.count ≤ count }
    ensures given { D.given door.new ≡ D.given door.old + result.count }
    ensures given_back { D.given_back door.new ≡ D.given_back door.old + result.count }
    ensures ended { result.failed ≡ false → (result.count ≡ count) ⊎ (D.has_ended door.new ≡ true) }
    ensures failed { result.failed ≡ true → Rose (D.fault_count door.old) (D.fault_count door.new) }
    ensures stands { result.failed ≡ false → D.fault_count door.new ≡ D.fault_count door.old }
    ensures listens { D.is_listening door.new ≡ D.is_listening door.old }
    ensures untouched { result.count ≡ 0 → desk.new ≡ desk.old }
    ensures served { ServesLinks (J.inspected judge.now) (J.compared judge.now) ((keeper : K) → K.fault_count keeper ≡ 0)
        (λ link. record { input = D.Link.input link; written = D.Link.written link; faults = D.Link.fault_count link }) result.count
        (record { rows = K.told desk.old; faults = K.fault_count desk.old }) (record { rows = K.told desk.new; faults = K.fault_count desk.new }) (D.told door.old) (D.told door.new) }
{
    let mut taken = 0;
    while taken < count {
        match serve_next(alloc, door, desk, judge) {
            Ok(true) => taken += 1,
            Ok(false) => {
                return Taken {
                    count: taken,
                    failed: false,
                };
            }
            Err(_) => {
                return Taken {
                    count: taken,
                    failed: true,
                };
            }
        }
    }
    Taken {
        count: taken,
        failed: false,
    }
}
