ghost use Rattle.std.specs.Prelude.{◌≡◌, ◌≢◌, IfOk};
ghost use Rattle.vmv_edge.specs.Outside.{Rose, Appended, AppendedFront};
ghost use Rattle.vmv_http.specs.Exchanges.{status_of, text_of};
ghost use Rattle.vmv_http.specs.Serving.{IfAnswered};

use crate::served::{LinkEnd, Served};
use std::alloc::{AllocError, Global};
use vmv_edge::{Link, Text, send_all};
use vmv_keeper::Reply;
use vmv_request::{Refusal, refusal_text, reply_status, reply_text};

/// The whole text of an answer.
fn text_of(alloc: Global, answer: &Result<Reply, Refusal>) -> Result<Text, AllocError>
    ensures { IfOk result (λ text. text ≡ text_of answer.now) }
{
    match answer {
        Ok(reply) => reply_text(alloc, reply),
        Err(refusal) => refusal_text(alloc, *refusal),
    }
}

fn status_of(answer: &Result<Reply, Refusal>) -> u16
    ensures { result ≡ status_of answer.now }
{
    match answer {
        Ok(reply) => reply_status(reply),
        Err(refusal) => refusal.status(),
    }
}

/// Writes an answer.
pub(crate) fn send<L: Link>(alloc: Global, link: &mut L, answer: &Result<Reply, Refusal>) -> Served
    ensures answered { IfAnswered result (λ status. (status ≡ status_of answer.now) × Appended (L.written link.old) (text_of answer.now) (L.written link.new)) }
    ensures failed { result ≡ Served.CutOff LinkEnd.WriteFailed → Rose (L.fault_count link.old) (L.fault_count link.new) }
    ensures prefix { result ≡ Served.CutOff LinkEnd.WriteFailed → AppendedFront (L.written link.old) (text_of answer.now) (L.written link.new) }
    ensures unwritten { result ≡ Served.Memory → L.written link.new ≡ L.written link.old }
    ensures stands { result ≢ Served.CutOff LinkEnd.WriteFailed → L.fault_count link.new ≡ L.fault_count link.old }
    ensures ended { result ≢ Served.CutOff LinkEnd.Ended }
    ensures read_failed { result ≢ Served.CutOff LinkEnd.ReadFailed }
    ensures kept { L.input link.new ≡ L.input link.old }
{
    let status = status_of(answer);
    let Ok(text) = text_of(alloc, answer) else {
        return Served::Memory;
    };
    match send_all(link, text.bytes()) {
        Ok(()) => Served::Answered { status },
        Err(_) => Served::CutOff {
            why: LinkEnd::WriteFailed,
        },
    }
}
