ghost use Rattle.std.specs.Prelude.{◌≡◌, ◌≢◌, ◌+◌, ◌-◌, ◌<◌, ◌≤◌, ◌++◌, [], length, take, slice_range, Err, IfOk, OnOk};
ghost use Rattle.vmv_edge.specs.Outside.{Rose, WasRead, IsAtEnd};
ghost use Rattle.vmv_request_reading.specs.Inputs.{OfInput, WereRead, IsFilled};

use crate::stop::Stop;
use std::alloc::{AllocError, Global};
use vmv_edge::Link;

/// Room for so many bytes.
pub(crate) fn room_of(alloc: Global, len: usize) -> Result<Vec<u8>, AllocError>
    ensures { IfOk result (λ room. length room.items ≡ len) }
{
    vec![in alloc; 0; len]
}

/// Reads into the room behind the bytes that are there, and says how many are there then.
pub(crate) fn read_behind<L: Link>(
    link: &mut L,
    room: &mut [u8],
    have: usize,
) -> Result<usize, Stop>
    requires { have < length room.old }
    ensures within { IfOk result (λ now. (have < now) × (now ≤ length room.new)) }
    ensures read { IfOk result (λ now. WasRead (L.input link.old) (slice_range room.new have now) (L.input link.new)) }
    ensures behind { IfOk result (λ now. take now room.new ≡ take have room.old ++ slice_range room.new have now) }
    ensures ended { result ≡ Err Stop.Ended → IsAtEnd (L.input link.old) × WasRead (L.input link.old) [] (L.input link.new) }
    ensures failed { result ≡ Err Stop.ReadFailed → Rose (L.fault_count link.old) (L.fault_count link.new) }
    ensures stands { result ≢ Err Stop.ReadFailed → L.fault_count link.new ≡ L.fault_count link.old }
    ensures kept { L.written link.new ≡ L.written link.old }
    ensures no_memory { result ≢ Err Stop.Memory }
{
    let n = link.read(&mut room[have..])?;
    if n == 0 {
        return Err(Stop::Ended);
    }
    Ok(have + n)
}

/// Fills the room behind the bytes that are there.
pub(crate) fn fill<L: Link>(link: &mut L, room: &mut [u8], have: usize) -> Result<(), Stop>
    requires { have ≤ length room.old }
    ensures filled { OnOk result (IsFilled (L.input link.old) (L.input link.new) (take have room.old) room.new) }
    ensures ended { result ≡ Err Stop.Ended → OfInput (L.input link.old) (λ input. have + length input < length room.new) }
    ensures failed { result ≡ Err Stop.ReadFailed → Rose (L.fault_count link.old) (L.fault_count link.new) }
    ensures stands { result ≢ Err Stop.ReadFailed → L.fault_count link.new ≡ L.fault_count link.old }
    ensures kept { L.written link.new ≡ L.written link.old }
    ensures bounded { result ≢ Err Stop.ReadFailed → WereRead (length room.new - have) (L.input link.old) (L.input link.new) }
    ensures no_memory { result ≢ Err Stop.Memory }
{
    let mut at = have;
    while at < room.len() {
        match read_behind(link, room, at) {
            Ok(now) => at = now,
            Err(stop) => return Err(stop),
        }
    }
    Ok(())
}
