ghost use Rattle.std.specs.Prelude.{◌≡◌, ◌≢◌, ◌<◌, ◌≤◌, ◌++◌, ℕ, List, length, take, slice_range, Some, None, Ok, Err, IfOk, IfSome};
ghost use Rattle.vmv_edge.specs.Outside.{Rose, WasRead};
ghost use Rattle.vmv_head.specs.Heads.{front_length};
ghost use Rattle.vmv_request_reading.specs.Inputs.{OfInput, WereRead};
ghost use Rattle.vmv_request_reading.specs.Places.{HasLed};

use crate::filling::read_behind;
use crate::stop::Stop;
use vmv_edge::Link;
use vmv_head::Place;

/// Where a head ends, and how many bytes were read.
#[derive(Clone, Copy, Debug, Drop)]
pub(crate) struct Found {
    pub len: usize,
    pub have: usize,
}

/// Where the head ends in the bytes that were read, where it ends in those behind `from`.
fn found_in(place: &mut Place, room: &[u8], from: usize, have: usize) -> Option<Found>
    requires from { from ≤ have }
    requires have { have ≤ length room.now }
    ensures within { IfSome result (λ f. (f.len ≤ have) × (f.have ≡ have)) }
    ensures whole { IfSome result (λ f. (read : List ℕ) → HasLed read from place.old → (more : List ℕ) → front_length ((read ++ slice_range room.now from have) ++ more) ≡ Some f.len) }
    ensures led { result ≡ None → (read : List ℕ) → HasLed read from place.old → HasLed (read ++ slice_range room.now from have) have place.new }
{
    match place.feed(&room[from..have]) {
        Some(end) => {
            let len = from + end;
            Some(Found { len, have })
        }
        None => None,
    }
}

/// Reads into the room until the bytes hold a whole head. It finds none where the room is full before.
pub(crate) fn scan<L: Link>(link: &mut L, room: &mut [u8]) -> Result<Option<Found>, Stop>
    ensures within { IfOk result (λ found. IfSome found (λ f. (f.len ≤ f.have) × (f.have ≤ length room.new))) }
    ensures read { IfOk result (λ found. IfSome found (λ f. WasRead (L.input link.old) (take f.have room.new) (L.input link.new))) }
    ensures whole { IfOk result (λ found. IfSome found (λ f. (more : List ℕ) → front_length (take f.have room.new ++ more) ≡ Some f.len)) }
    ensures overlong { result ≡ Ok None → (front_length room.new ≡ None) × WasRead (L.input link.old) room.new (L.input link.new) }
    ensures ended { result ≡ Err Stop.Ended → OfInput (L.input link.old) (λ input. (length input < length room.new) × (front_length input ≡ None)) }
    ensures failed { result ≡ Err Stop.ReadFailed → Rose (L.fault_count link.old) (L.fault_count link.new) }
    ensures stands { result ≢ Err Stop.ReadFailed → L.fault_count link.new ≡ L.fault_count link.old }
    ensures kept { L.written link.new ≡ L.written link.old }
    ensures bounded { result ≢ Err Stop.ReadFailed → WereRead (length room.new) (L.input link.old) (L.input link.new) }
    ensures no_memory { result ≢ Err Stop.Memory }
{
    let mut place = Place::Blank;
    let mut have = 0;
    while have < room.len() {
        let from = have;
        match read_behind(link, room, from) {
            Ok(now) => have = now,
            Err(stop) => return Err(stop),
        }
        match found_in(&mut place, room, from, have) {
            Some(found) => return Ok(Some(found)),
            None => {}
        }
    }
    Ok(None)
}
