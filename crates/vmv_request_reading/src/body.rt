ghost use Rattle.std.specs.Prelude.{◌≡◌, ◌≢◌, ◌<◌, ◌≤◌, ◌+◌, ◌-◌, ◌++◌, length, take, Err, IfOk, OnOk};
ghost use Rattle.vmv_edge.specs.Outside.{Rose};
ghost use Rattle.vmv_request_reading.specs.Inputs.{OfInput, OfInputs, WereRead, IsFilled};

use crate::filling::{fill, room_of};
use crate::stop::Stop;
use std::alloc::Global;
use vmv_edge::Link;

/// Puts bytes into the front of a room.
fn put_first(room: &mut [u8], begun: &[u8])
    requires { length begun.now ≤ length room.old }
    ensures { take (length begun.now) room.new ≡ begun.now }
{
    let len = begun.len();
    room[..len].copy_from_slice(begun);
}

/// Reads a body into its room, where some first bytes of it were read before.
fn read_into<L: Link>(link: &mut L, begun: &[u8], room: &mut [u8]) -> Result<(), Stop>
    requires { length begun.now ≤ length room.old }
    ensures filled { OnOk result (IsFilled (L.input link.old) (L.input link.new) begun.now room.new) }
    ensures ended { result ≡ Err Stop.Ended → OfInput (L.input link.old) (λ rest. length begun.now + length rest < length room.new) }
    ensures failed { result ≡ Err Stop.ReadFailed → Rose (L.fault_count link.old) (L.fault_count link.new) }
    ensures stands { result ≢ Err Stop.ReadFailed → L.fault_count link.new ≡ L.fault_count link.old }
    ensures kept { L.written link.new ≡ L.written link.old }
    ensures bounded { result ≢ Err Stop.ReadFailed → WereRead (length room.new - length begun.now) (L.input link.old) (L.input link.new) }
    ensures no_memory { result ≢ Err Stop.Memory }
{
    put_first(room, begun);
    fill(link, room, begun.len())
}

/// Reads a body of so many bytes, of which some were read with the head. What was read behind the body is left out.
///
/// It reads no byte behind the body, and takes all its memory first.
pub fn read_body<L: Link>(
    alloc: Global,
    link: &mut L,
    begun: &[u8],
    len: usize,
) -> Result<Vec<u8>, Stop>
    ensures body { IfOk result (λ body. OfInputs (L.input link.old) (L.input link.new) (λ rest _. (len ≤ length (begun.now ++ rest)) × (body.items ≡ take len (begun.now ++ rest)))) }
    ensures ended { result ≡ Err Stop.Ended → OfInput (L.input link.old) (λ rest. length (begun.now ++ rest) < len) }
    ensures failed { result ≡ Err Stop.ReadFailed → Rose (L.fault_count link.old) (L.fault_count link.new) }
    ensures stands { result ≢ Err Stop.ReadFailed → L.fault_count link.new ≡ L.fault_count link.old }
    ensures kept { L.written link.new ≡ L.written link.old }
    ensures bounded { result ≢ Err Stop.ReadFailed → WereRead (len - length begun.now) (L.input link.old) (L.input link.new) }
{
    if len <= begun.len() {
        return Ok(Vec::from_slice(alloc, &begun[..len])?);
    }
    let mut body = room_of(alloc, len)?;
    match read_into(link, begun, &mut body) {
        Ok(()) => Ok(body),
        Err(stop) => Err(stop),
    }
}
