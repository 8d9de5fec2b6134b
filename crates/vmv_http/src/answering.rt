ghost use Rattle.std.specs.Prelude.{◌≡◌, ℕ, List, None, OnErr};
ghost use Rattle.vmv_keeper.specs.Outside.{OfTold};
ghost use Rattle.vmv_desk_rules.specs.Heard.{WellBy};
ghost use Rattle.vmv_http.specs.Requests.{Asks};
ghost use Rattle.vmv_http.specs.Exchanges.{Exchanged, MayAnswer, IsCounted, status_of};
ghost use Rattle.vmv_http.specs.Serving.{OnRows};

use std::alloc::Global;
use vmv_desk::Desk;
use vmv_head::Refusal;
use vmv_keeper::{Command, Judge, Keeper, Reply};

/// What is answered to a request: a command is handled, and a refusal is told.
pub(crate) fn answer<K: Keeper, J: Judge>(
    alloc: Global,
    desk: &mut Desk<K>,
    judge: &J,
    asked: Result<Command, Refusal>,
) -> Result<Reply, Refusal>
    ensures may { (input : List ℕ) → Asks input asked → MayAnswer input result }
    ensures exchanged { (input : List ℕ) → Asks input asked → OnRows (J.inspected judge.now) (J.compared judge.now) (K.told desk.old) (λ M tables. Exchanged M input tables (K.told desk.new) result) }
    ensures refused { OnErr result (desk.new ≡ desk.old) }
    ensures counted { IsCounted (status_of result) (K.fault_count desk.old) (K.fault_count desk.new) }
    ensures well { OfTold (K.told desk.old) (λ tables. WellBy (J.inspected judge.now) (J.compared judge.now) tables → OfTold (K.told desk.new) (WellBy (J.inspected judge.now) (J.compared judge.now))) }
    ensures untold { K.told desk.old ≡ None → K.told desk.new ≡ None }
{
    match asked {
        Ok(command) => Ok(desk.handle(alloc, &command, judge)),
        Err(refusal) => Err(refusal),
    }
}
