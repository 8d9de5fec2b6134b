ghost use Rattle.std.specs.Prelude.{◌≡◌, ◌≢◌, ◌+◌, None, Result, OnErr};
ghost use Rattle.vmv_edge.specs.Outside.{Rose, Appended, AppendedFront};
ghost use Rattle.vmv_keeper.specs.Outside.{OfTold};
ghost use Rattle.vmv_desk_rules.specs.Heard.{WellBy};
ghost use Rattle.vmv_request_reading.specs.Inputs.{OfInput, WereRead};
ghost use Rattle.vmv_http.specs.Requests.{EndsEarly};
ghost use Rattle.vmv_http.specs.Exchanges.{Answer, status_of, text_of, IsCounted};
ghost use Rattle.vmv_http.specs.Serving.{IfAnswered, IsAnswerBy, IsUnansweredBy};

use crate::answering::answer;
use crate::reading::read_request;
use crate::sending::send;
use crate::served::{LinkEnd, Served};
use std::alloc::Global;
use vmv_desk::Desk;
use vmv_edge::Link;
use vmv_keeper::{Judge, Keeper};
use vmv_request_reading::Stop;

/// Reads one request from a link, has the desk do what it asks for, and writes the answer.
///
/// A command that was handled stays done, also where its answer wasn't written. At most 8,192 bytes are read before the
/// head is whole, and from then on only what is left of the body.
pub fn serve_one<L: Link, K: Keeper, J: Judge>(
    alloc: Global,
    link: &mut L,
    desk: &mut Desk<K>,
    judge: &J,
) -> Served
    ensures answered { IfAnswered result (λ status. (answer : Answer) × (status ≡ status_of answer) × Appended (L.written link.old) (text_of answer) (L.written link.new)
        × IsAnswerBy (J.inspected judge.now) (J.compared judge.now) (L.input link.old) (K.told desk.old) (K.told desk.new) answer × OnErr answer (desk.new ≡ desk.old)) }
    ensures counted { IfAnswered result (λ status. IsCounted status (K.fault_count desk.old) (K.fault_count desk.new)) }
    ensures ended { result ≡ Served.CutOff LinkEnd.Ended → OfInput (L.input link.old) EndsEarly }
    ensures ended_unhandled { result ≡ Served.CutOff LinkEnd.Ended → (desk.new ≡ desk.old) × (L.written link.new ≡ L.written link.old) }
    ensures read_failed { result ≡ Served.CutOff LinkEnd.ReadFailed → Rose (L.fault_count link.old) (L.fault_count link.new) }
    ensures read_failed_unhandled { result ≡ Served.CutOff LinkEnd.ReadFailed → (desk.new ≡ desk.old) × (L.written link.new ≡ L.written link.old) }
    ensures write_failed { result ≡ Served.CutOff LinkEnd.WriteFailed → Rose (L.fault_count link.old) (L.fault_count link.new) }
    ensures cut_answer { result ≡ Served.CutOff LinkEnd.WriteFailed → (answer : Answer) × AppendedFront (L.written link.old) (text_of answer) (L.written link.new)
        × IsAnswerBy (J.inspected judge.now) (J.compared judge.now) (L.input link.old) (K.told desk.old) (K.told desk.new) answer × OnErr answer (desk.new ≡ desk.old)
        × IsCounted (status_of answer) (K.fault_count desk.old) (K.fault_count desk.new) }
    ensures unwritten { result ≡ Served.Memory → L.written link.new ≡ L.written link.old }
    ensures unanswered { result ≡ Served.Memory → IsUnansweredBy (J.inspected judge.now) (J.compared judge.now) (L.input link.old) (K.told desk.old) (K.told desk.new) }
    ensures stands { result ≢ Served.CutOff LinkEnd.ReadFailed → result ≢ Served.CutOff LinkEnd.WriteFailed → L.fault_count link.new ≡ L.fault_count link.old }
    ensures bounded { result ≢ Served.CutOff LinkEnd.ReadFailed → WereRead (8192 + 131072) (L.input link.old) (L.input link.new) }
    ensures well { OfTold (K.told desk.old) (λ tables. WellBy (J.inspected judge.now) (J.compared judge.now) tables → OfTold (K.told desk.new) (WellBy (J.inspected judge.now) (J.compared judge.now))) }
    ensures untold { K.told desk.old ≡ None → K.told desk.new ≡ None }
{
    match read_request(alloc, link) {
        Ok(asked) => {
            let answer = answer(alloc, desk, judge, asked);
            send(alloc, link, &answer)
        }
        Err(Stop::Ended) => Served::CutOff {
            why: LinkEnd::Ended,
        },
        Err(Stop::ReadFailed) => Served::CutOff {
            why: LinkEnd::ReadFailed,
        },
        Err(Stop::Memory) => Served::Memory,
    }
}
