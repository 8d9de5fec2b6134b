ghost use Rattle.std.specs.Prelude.{◌≡◌, ◌≢◌, ◌≤◌, length, take, drop, Ok, Err, None, IfOk, IfSome};
ghost use Rattle.vmv_edge.specs.Outside.{Rose};
ghost use Rattle.vmv_head.specs.Heads.{head_in};
ghost use Rattle.vmv_request_reading.specs.Inputs.{OfInput, OfInputs, WereRead};
ghost use Rattle.vmv_request_reading.specs.Fronts.{IsOverlong, IsHeadless, IsFront, IsFoundFront};

use crate::filling::room_of;
use crate::scanning::{Found, scan};
use crate::stop::Stop;
use std::alloc::{AllocError, Global};
use vmv_edge::{Link, Text};
use vmv_head::blank_length;

/// The head of a request, without the empty lines in front of it, and the bytes that were read behind it.
#[derive(Debug, Drop)]
pub struct Front {
    pub head: Text,
    pub behind: Text,
}

/// The head and what is behind it, of bytes in which the head ends after so many.
fn front_of(alloc: Global, read: &[u8], len: usize) -> Result<Front, AllocError>
    requires { len ≤ length read.now }
    ensures head { IfOk result (λ front. front.head ≡ head_in read.now len) }
    ensures behind { IfOk result (λ front. front.behind ≡ drop len read.now) }
{
    let lines = &read[..len];
    let head = Text::from_slice(alloc, &lines[blank_length(lines)..])?;
    let behind = Text::from_slice(alloc, &read[len..])?;
    Ok(Front { head, behind })
}

/// The head and what is behind it, where a head was found.
fn front_found(
    alloc: Global,
    room: &[u8],
    found: Option<Found>,
) -> Result<Option<Front>, AllocError>
    requires { IfSome found (λ f. (f.len ≤ f.have) × (f.have ≤ length room.now)) }
    ensures none { found ≡ None → IfOk result (λ front. front ≡ None) }
    ensures some { IfSome found (λ f. IfOk result (λ front. IsFoundFront (take f.have room.now) f.len front)) }
{
    match found {
        Some(f) => Ok(Some(front_of(alloc, &room[..f.have], f.len)?)),
        None => Ok(None),
    }
}

/// Reads the head of a request with the empty lines in front of it. It finds none in the first 8,192 bytes of an input
/// that hold no whole head.
///
/// It reads at most 8,192 bytes: all of them may belong to the head until it is whole.
pub fn read_front<L: Link>(alloc: Global, link: &mut L) -> Result<Option<Front>, Stop>
    ensures front { IfOk result (λ found. IfSome found (λ front. OfInputs (L.input link.old) (L.input link.new) (IsFront front))) }
    ensures overlong { result ≡ Ok None → OfInput (L.input link.old) IsOverlong }
    ensures ended { result ≡ Err Stop.Ended → OfInput (L.input link.old) IsHeadless }
    ensures failed { result ≡ Err Stop.ReadFailed → Rose (L.fault_count link.old) (L.fault_count link.new) }
    ensures stands { result ≢ Err Stop.ReadFailed → L.fault_count link.new ≡ L.fault_count link.old }
    ensures kept { L.written link.new ≡ L.written link.old }
    ensures bounded { result ≢ Err Stop.ReadFailed → WereRead 8192 (L.input link.old) (L.input link.new) }
{
    let mut room = room_of(alloc, 8192)?;
    match scan(link, &mut room) {
        Ok(found) => Ok(front_found(alloc, &room, found)?),
        Err(stop) => Err(stop),
    }
}
