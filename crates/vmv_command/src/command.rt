ghost use Rattle.std.specs.Prelude.{◌≡◌, ◌≢◌, ◌≤◌, ◌⊎◌, ℕ, List, [], map, IfOk, IsErrOf};
ghost use Rattle.std.specs.String.{string_bytes};
ghost use Rattle.vmv_words.specs.Words.{AsksNothing, workers_of};
ghost use Rattle.vmv_words.specs.Requests.{request_of};
ghost use Rattle.vmv_command.specs.Command.{IsWhole, Does, Outputs, VerdictHolds, ProofHolds};
ghost use Rattle.vmv_command.specs.Regressions.{RegressionHolds};
ghost use Rattle.vmv_edge.specs.Outside.{Rose, Appended, AppendedFront};

use crate::baselines::baseline_file;
use crate::output::{Output, Stop, print};
use crate::rechecks::recheck_files;
use crate::replays::replay_files;
use crate::review::review_files;
use crate::samples::sample_output;
use std::alloc::Global;
use std::thread::Threads;
use vmv_edge::{Shelf, Sink};
use vmv_proof_check::accepted_proofs_are_sound;
use vmv_report::{correct_verdicts_hold, only_correct_reports_say_so, regressing_reports_show_it};
use vmv_words::{Request, read_words, words_ask_for_few_workers, words_ask_for_one_thing};

const USAGE: &[u8] =
    b"usage: vmv review BASE REV [--workers N] [--proof] | baseline BASE [--workers N] | recheck BASE REV PROOF | replay REV WITNESS | sample NUMBER [--workers N] | serve ADDRESS STORE COUNT [--workers N]\n";

// The output of what is asked for.
fn output_of<R: Threads + Sync, F: Shelf>(
    rt: &R,
    alloc: Global,
    shelf: &mut F,
    request: &Request,
) -> Result<Output, Stop>
    requires { (1 ≤ workers_of (request_of request.now)) × (workers_of (request_of request.now) ≤ 64) }
    ensures output { IfOk result (λ output. Does (F.told shelf.old) (request_of request.now) output.text output.status) }
    ensures failed { IsErrOf result Stop.Failed → Rose (F.fault_count shelf.old) (F.fault_count shelf.new) }
    ensures stands { ¬ (IsErrOf result Stop.Failed) → F.fault_count shelf.new ≡ F.fault_count shelf.old }
{
    match request {
        Request::Review {
            base,
            revision,
            workers,
            proof,
        } => review_files(rt, alloc, shelf, *base, *revision, *proof, *workers),
        Request::Baseline { base, workers } => baseline_file(rt, alloc, shelf, *base, *workers),
        Request::Recheck {
            base,
            revision,
            proof,
        } => recheck_files(alloc, shelf, *base, *revision, *proof),
        Request::Replay { revision, witness } => replay_files(alloc, shelf, *revision, *witness),
        Request::Sample { number, workers } => Ok(sample_output(rt, alloc, *number, *workers)?),
    }
}

/// Does the command that the words say, and gives its status: for a review 0 where the revision is relatively correct to the
/// base, 1 where there are alarms, 2 where there is a regression, and 3 where the base is vacuous; for the check of a proof 0
/// where it is accepted and no row is left, and 1 where rows are left or it is refused; for a replay 0 where the run fails at
/// the named site of the witness, and 1 where it doesn't or the witness doesn't fit; for a sample 0; 5 for a text that meets a limit, 4 for
/// one that has another fault, 6 where a read failed, 7 where a write failed, 8 where memory ran out, 9 for other words.
///
/// All texts are read first, a proof's of at most 67,108,864 bytes and each other of at most 1,048,576; then the work is done;
/// then the whole output is written.
pub fn run_command<R: Threads + Sync, F: Shelf, O: Sink>(
    rt: &R,
    alloc: Global,
    words: &[String],
    shelf: &mut F,
    out: &mut O,
) -> u8
    ensures statuses { result ≤ 9 }
    ensures output { IsWhole result → (printed : List ℕ) × Outputs (map string_bytes words.now) (F.told shelf.old) printed result × Appended (O.taken out.old) printed (O.taken out.new) }
    ensures usage { AsksNothing (map string_bytes words.now) → (result ≡ 9) ⊎ (result ≡ 7) ⊎ (result ≡ 8) }
    ensures shelf_failed { result ≡ 6 → Rose (F.fault_count shelf.old) (F.fault_count shelf.new) }
    ensures shelf_stands { result ≢ 6 → F.fault_count shelf.new ≡ F.fault_count shelf.old }
    ensures nothing { (result ≡ 6) ⊎ (result ≡ 8) → Appended (O.taken out.old) [] (O.taken out.new) }
    ensures sink_failed { result ≡ 7 → Rose (O.fault_count out.old) (O.fault_count out.new) }
    ensures sink_stands { result ≢ 7 → O.fault_count out.new ≡ O.fault_count out.old }
    ensures prefix { result ≡ 7 → (printed : List ℕ) × (status : ℕ) × Outputs (map string_bytes words.now) (F.told shelf.old) printed status × AppendedFront (O.taken out.old) printed (O.taken out.new) }
    ensures relatively_correct { VerdictHolds (map string_bytes words.now) (F.told shelf.old) (O.taken out.old) (O.taken out.new) }
    ensures accepted { ProofHolds (map string_bytes words.now) (F.told shelf.old) result }
    ensures regression { RegressionHolds (map string_bytes words.now) (F.told shelf.old) (O.taken out.old) (O.taken out.new) result }
{
    correct_verdicts_hold();
    only_correct_reports_say_so();
    regressing_reports_show_it();
    accepted_proofs_are_sound();
    words_ask_for_one_thing();
    words_ask_for_few_workers();
    let request = match read_words(alloc, words) {
        Ok(Some(request)) => request,
        Ok(None) => return print(out, USAGE, 9),
        Err(_) => return 8,
    };
    match output_of(rt, alloc, shelf, &request) {
        Ok(output) => print(out, output.text.bytes(), output.status),
        Err(Stop::Failed) => 6,
        Err(Stop::Memory) => 8,
    }
}
