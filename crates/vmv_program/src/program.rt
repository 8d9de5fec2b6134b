ghost use Rattle.std.specs.Prelude.{◌≡◌, ◌≢◌, ◌+◌, ◌≤◌, ◌⊎◌, ℕ, List, [], ◌++◌, map, true, false};
ghost use Rattle.std.specs.String.{string_bytes};
ghost use Rattle.vmv_edge.specs.Outside.{Rose, Appended, AppendedFront};
ghost use Rattle.vmv_vault.specs.Given.{IsGivenAs};
ghost use Rattle.vmv_words.specs.Words.{AsksNothing};
ghost use Rattle.vmv_words.specs.Services.{AsksNoService};
ghost use Rattle.vmv_gate.specs.Judged.{Inspects, Compares};
ghost use Rattle.vmv_command.specs.Command.{IsWhole, Outputs, VerdictHolds, ProofHolds};
ghost use Rattle.vmv_command.specs.Regressions.{RegressionHolds};
ghost use Rattle.vmv_serve.specs.Lines.{serving, served};
ghost use Rattle.vmv_serve.specs.Serves.{Stored};
ghost use Rattle.vmv_serve.specs.Services.{ServesLinks};
ghost use Rattle.vmv_program.specs.Asked.{OfService, address_of, store_of, count_of};

use std::alloc::Global;
use std::thread::Threads;
use vmv_command::run_command;
use vmv_door::Door;
use vmv_edge::{Shelf, Sink};
use vmv_gate::{Gate, Shared};
use vmv_serve::serve;
use vmv_vault::Vault;
use vmv_words::{
    read_service, services_are_done_by_few_workers, words_ask_for_no_service_beside,
    words_ask_for_one_service,
};

/// Does what the words say, and gives its status.
///
/// For a review it is 0 where the revision is relatively correct to the base, 1 where there are alarms, 2 where there is a
/// regression, and 3 where the base is vacuous; for the check of a proof 0 where it is accepted and no row is left, and 1 where
/// rows are left or it is refused; for a replay 0 where the run fails at the named site of the witness, and 1 where it doesn't or
/// the witness doesn't fit; for a sample 0; for a service 0 where it took so many connections, or the door has ended. It is 5 for
/// a text that meets a limit, 4 for one that has another fault, 6 where a read, the vault, the door or the start of a service's desk
/// failed, 7 where a write failed, 8 where memory ran out, 9 for other words.
///
/// For a command over texts all texts are read first, a proof's of at most 67,108,864 bytes and each other of at most 1,048,576;
/// then the work is done; then the whole output is written. A service listens, opens its store and starts its desk; then it prints
/// `serving` and its address, and takes connections one after another, each given back however it was served; then the store goes
/// back, and `served` and how many there were is printed.
pub fn run<R: Threads + Shared + Sync, F: Shelf, O: Sink, V: Vault, D: Door>(
    rt: &R,
    alloc: Global,
    words: &[String],
    shelf: &mut F,
    out: &mut O,
    vault: &mut V,
    door: &mut D,
) -> u8
    ensures statuses { result ≤ 9 }
    ensures output { AsksNoService (map string_bytes words.now) → IsWhole result
        → (printed : List ℕ) × Outputs (map string_bytes words.now) (F.told shelf.old) printed result × Appended (O.taken out.old) printed (O.taken out.new) }
    ensures usage { AsksNoService (map string_bytes words.now) → AsksNothing (map string_bytes words.now) → (result ≡ 9) ⊎ (result ≡ 7) ⊎ (result ≡ 8) }
    ensures shelf_failed { AsksNoService (map string_bytes words.now) → result ≡ 6 → Rose (F.fault_count shelf.old) (F.fault_count shelf.new) }
    ensures shelf_stands { result ≢ 6 → F.fault_count shelf.new ≡ F.fault_count shelf.old }
    ensures nothing { AsksNoService (map string_bytes words.now) → result ≡ 6 → Appended (O.taken out.old) [] (O.taken out.new) }
    ensures memory { result ≡ 8 → Appended (O.taken out.old) [] (O.taken out.new) }
    ensures sink_failed { result ≡ 7 → Rose (O.fault_count out.old) (O.fault_count out.new) }
    ensures sink_stands { result ≢ 7 → O.fault_count out.new ≡ O.fault_count out.old }
    ensures others_stand { AsksNoService (map string_bytes words.now) → (V.fault_count vault.new ≡ V.fault_count vault.old) × (D.fault_count door.new ≡ D.fault_count door.old) }
    ensures prefix { AsksNoService (map string_bytes words.now) → result ≡ 7
        → (printed : List ℕ) × (status : ℕ) × Outputs (map string_bytes words.now) (F.told shelf.old) printed status × AppendedFront (O.taken out.old) printed (O.taken out.new) }
    ensures relatively_correct { VerdictHolds (map string_bytes words.now) (F.told shelf.old) (O.taken out.old) (O.taken out.new) }
    ensures accepted { ProofHolds (map string_bytes words.now) (F.told shelf.old) result }
    ensures regression { RegressionHolds (map string_bytes words.now) (F.told shelf.old) (O.taken out.old) (O.taken out.new) result }
    ensures service_statuses { OfService (map string_bytes words.now) (λ _. (result ≡ 0) ⊎ (result ≡ 6) ⊎ (result ≡ 7) ⊎ (result ≡ 8)) }
    ensures unread { OfService (map string_bytes words.now) (λ _. F.fault_count shelf.new ≡ F.fault_count shelf.old) }
    ensures outside_failed { OfService (map string_bytes words.now) (λ _. result ≡ 6 → Rose (V.fault_count vault.old) (V.fault_count vault.new) ⊎ Rose (D.fault_count door.old) (D.fault_count door.new)) }
    ensures not_begun { OfService (map string_bytes words.now) (λ asked. result ≡ 6 → (Appended (O.taken out.old) [] (O.taken out.new) × (D.given door.new ≡ D.given door.old)
        × (((D.is_listening door.new ≡ false) × Rose (D.fault_count door.old) (D.fault_count door.new)) ⊎ Rose (V.fault_count vault.old) (V.fault_count vault.new)))
        ⊎ (Appended (O.taken out.old) (serving (address_of asked)) (O.taken out.new) × (D.is_listening door.new ≡ true) × Rose (D.fault_count door.old) (D.fault_count door.new))) }
    ensures door_failed { OfService (map string_bytes words.now) (λ _. result ≡ 6 → D.given door.new ≢ D.given door.old → Rose (D.fault_count door.old) (D.fault_count door.new)) }
    ensures door_stands { OfService (map string_bytes words.now) (λ _. result ≢ 6 → D.fault_count door.new ≡ D.fault_count door.old) }
    ensures vault_stands { OfService (map string_bytes words.now) (λ _. result ≢ 6 → D.given door.new ≡ D.given door.old → V.fault_count vault.new ≡ V.fault_count vault.old) }
    ensures steady_stands { OfService (map string_bytes words.now) (λ _. V.IsSteady vault.old → result ≢ 6 → V.fault_count vault.new ≡ V.fault_count vault.old) }
    ensures complete { OfService (map string_bytes words.now) (λ _. ¬ (Rose (O.fault_count out.old) (O.fault_count out.new)) → ¬ (Rose (V.fault_count vault.old) (V.fault_count vault.new))
        → ¬ (Rose (D.fault_count door.old) (D.fault_count door.new)) → (result ≡ 0) ⊎ (result ≡ 8)) }
    ensures unserved { OfService (map string_bytes words.now) (λ _. result ≡ 8 → D.given door.new ≡ D.given door.old) }
    ensures listens { OfService (map string_bytes words.now) (λ _. (result ≡ 0) ⊎ (result ≡ 7) → D.is_listening door.new ≡ true) }
    ensures whole { OfService (map string_bytes words.now) (λ asked. result ≡ 0 → (taken : ℕ) × (taken ≤ count_of asked) × (D.given door.new ≡ D.given door.old + taken)
        × ((taken ≡ count_of asked) ⊎ (D.has_ended door.new ≡ true)) × Appended (O.taken out.old) (serving (address_of asked) ++ served taken) (O.taken out.new)) }
    ensures front { OfService (map string_bytes words.now) (λ asked. result ≡ 7 → (taken : ℕ) × (D.given door.new ≡ D.given door.old + taken)
        × AppendedFront (O.taken out.old) (serving (address_of asked) ++ served taken) (O.taken out.new)) }
    ensures all_back { OfService (map string_bytes words.now) (λ _. (taken : ℕ) × (D.given door.new ≡ D.given door.old + taken) × (D.given_back door.new ≡ D.given_back door.old + taken)) }
    ensures served { OfService (map string_bytes words.now) (λ asked. (taken : ℕ) × (start : Stored) × (now : Stored) × (D.given door.new ≡ D.given door.old + taken)
        × IsGivenAs (V.told vault.old (store_of asked)) start.rows × (start.faults ≡ 0)
        × ServesLinks Inspects Compares (V.IsSteady vault.old) (λ link. record { input = D.Link.input link; written = D.Link.written link; faults = D.Link.fault_count link }) taken
        start now (D.told door.old) (D.told door.new) × (now.faults ≢ 0 → Rose (V.fault_count vault.old) (V.fault_count vault.new))) }
{
    words_ask_for_one_service();
    words_ask_for_no_service_beside();
    services_are_done_by_few_workers();
    let service = match read_service(alloc, words) {
        Ok(Some(service)) => service,
        Ok(None) => return run_command(rt, alloc, words, shelf, out),
        Err(_) => return 8,
    };
    serve(
        alloc,
        service.address,
        service.store,
        service.count,
        out,
        vault,
        door,
        &Gate::new(rt, service.workers),
    )
}
