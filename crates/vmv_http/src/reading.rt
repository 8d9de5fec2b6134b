ghost use Rattle.std.specs.Prelude.{◌≡◌, ◌≢◌, ◌+◌, ◌≤◌, ◌<◌, ◌++◌, length, take, Err, IfOk};
ghost use Rattle.vmv_edge.specs.Outside.{Rose};
ghost use Rattle.vmv_routes.specs.Asked.{asked_of};
ghost use Rattle.vmv_request_reading.specs.Inputs.{OfInput, WereRead};
ghost use Rattle.vmv_http.specs.Requests.{AsksBehind, LacksBody, Asks, EndsEarly};

use std::alloc::Global;
use vmv_edge::Link;
use vmv_head::{Head, Refusal, read_head};
use vmv_keeper::Command;
use vmv_request_reading::{Stop, read_body, read_front};
use vmv_routes::command_of;

/// What a request asks for whose head isn't refused, of whose body some bytes were read with the head.
fn read_behind<L: Link>(
    alloc: Global,
    link: &mut L,
    head: &Head<'_>,
    begun: &[u8],
) -> Result<Result<Command, Refusal>, Stop>
    ensures whole { IfOk result (λ _. OfInput (L.input link.old) (λ rest. head.now.body_len ≤ length (begun.now ++ rest))) }
    ensures asked { IfOk result (λ asked. OfInput (L.input link.old) (λ rest. asked ≡ asked_of head.now.method.now head.now.target.now head.now.members head.now.member.now (take head.now.body_len (begun.now ++ rest)))) }
    ensures ended { result ≡ Err Stop.Ended → OfInput (L.input link.old) (λ rest. length (begun.now ++ rest) < head.now.body_len) }
    ensures failed { result ≡ Err Stop.ReadFailed → Rose (L.fault_count link.old) (L.fault_count link.new) }
    ensures stands { result ≢ Err Stop.ReadFailed → L.fault_count link.new ≡ L.fault_count link.old }
    ensures kept { L.written link.new ≡ L.written link.old }
    ensures bounded { result ≢ Err Stop.ReadFailed → WereRead head.now.body_len (L.input link.old) (L.input link.new) }
{
    match read_body(alloc, link, begun, head.body_len) {
        Ok(body) => Ok(command_of(alloc, head, &body)?),
        Err(stop) => Err(stop),
    }
}

/// What a request with this head asks for, of whose body some bytes were read with the head.
fn read_with<L: Link>(
    alloc: Global,
    link: &mut L,
    head: &[u8],
    begun: &[u8],
) -> Result<Result<Command, Refusal>, Stop>
    ensures asked { IfOk result (λ asked. OfInput (L.input link.old) (λ rest. AsksBehind head.now (begun.now ++ rest) asked)) }
    ensures ended { result ≡ Err Stop.Ended → OfInput (L.input link.old) (λ rest. LacksBody head.now (begun.now ++ rest)) }
    ensures failed { result ≡ Err Stop.ReadFailed → Rose (L.fault_count link.old) (L.fault_count link.new) }
    ensures stands { result ≢ Err Stop.ReadFailed → L.fault_count link.new ≡ L.fault_count link.old }
    ensures kept { L.written link.new ≡ L.written link.old }
    ensures bounded { result ≢ Err Stop.ReadFailed → WereRead 131072 (L.input link.old) (L.input link.new) }
{
    match read_head(head) {
        Ok(read) => read_behind(alloc, link, &read, begun),
        Err(refusal) => Ok(Err(refusal)),
    }
}

/// Reads a request, and says what it asks for, or why it is refused.
pub(crate) fn read_request<L: Link>(
    alloc: Global,
    link: &mut L,
) -> Result<Result<Command, Refusal>, Stop>
    ensures asked { IfOk result (λ asked. OfInput (L.input link.old) (λ input. Asks input asked)) }
    ensures ended { result ≡ Err Stop.Ended → OfInput (L.input link.old) EndsEarly }
    ensures failed { result ≡ Err Stop.ReadFailed → Rose (L.fault_count link.old) (L.fault_count link.new) }
    ensures stands { result ≢ Err Stop.ReadFailed → L.fault_count link.new ≡ L.fault_count link.old }
    ensures kept { L.written link.new ≡ L.written link.old }
    ensures bounded { result ≢ Err Stop.ReadFailed → WereRead (8192 + 131072) (L.input link.old) (L.input link.new) }
{
    match read_front(alloc, link) {
        Ok(Some(front)) => read_with(alloc, link, front.head.bytes(), front.behind.bytes()),
        Ok(None) => Ok(Err(Refusal::HeadTooLong)),
        Err(stop) => Err(stop),
    }
}
