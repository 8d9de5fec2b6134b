ghost use Rattle.std.specs.Prelude.{◌≡◌, ◌≢◌, ◌+◌, ◌≤◌, ◌⊎◌, ℕ, List, [], ◌++◌, true, false, OnOk, OnErr};
ghost use Rattle.vmv_edge.specs.Outside.{Rose, Appended, AppendedFront};
ghost use Rattle.vmv_vault.specs.Given.{IsGivenAs};
ghost use Rattle.vmv_serve.specs.Lines.{serving, served};
ghost use Rattle.vmv_serve.specs.Serves.{Seen, Stored};
ghost use Rattle.vmv_serve.specs.Services.{ServesLinks};

use crate::lines::{print_served, print_serving};
use crate::turns::serve_links;
use std::alloc::Global;
use vmv_desk::{Desk, StartFault};
use vmv_door::Door;
use vmv_edge::Sink;
use vmv_keeper::{Judge, Keeper};
use vmv_vault::{Vault, VaultFault};

// Serves links over a desk that has started, and prints both lines. It gives the status, and takes no memory of its own.
fn serve_over<D: Door, O: Sink, K: Keeper, J: Judge>(
    alloc: Global,
    address: &str,
    count: u32,
    out: &mut O,
    door: &mut D,
    desk: &mut Desk<K>,
    judge: &J,
) -> u8
    ensures statuses { (result ≡ 0) ⊎ ((result ≡ 6) ⊎ (result ≡ 7)) }
    ensures sink_failed { result ≡ 7 → Rose (O.fault_count out.old) (O.fault_count out.new) }
    ensures sink_stands { result ≢ 7 → O.fault_count out.new ≡ O.fault_count out.old }
    ensures door_failed { result ≡ 6 → Rose (D.fault_count door.old) (D.fault_count door.new) }
    ensures door_stands { result ≢ 6 → D.fault_count door.new ≡ D.fault_count door.old }
    ensures listens { D.is_listening door.new ≡ D.is_listening door.old }
    ensures begun { result ≡ 6 → Appended (O.taken out.old) (serving address.now) (O.taken out.new) }
    ensures whole { result ≡ 0 → (taken : ℕ) × (taken ≤ count) × (D.given door.new ≡ D.given door.old + taken) × ((taken ≡ count) ⊎ (D.has_ended door.new ≡ true))
        × Appended (O.taken out.old) (serving address.now ++ served taken) (O.taken out.new) }
    ensures prefix { result ≡ 7 → (taken : ℕ) × (D.given door.new ≡ D.given door.old + taken) × AppendedFront (O.taken out.old) (serving address.now ++ served taken) (O.taken out.new) }
    ensures untouched { D.given door.new ≡ D.given door.old → desk.new ≡ desk.old }
    ensures served { (taken : ℕ) × (D.given door.new ≡ D.given door.old + taken) × (D.given_back door.new ≡ D.given_back door.old + taken)
        × ServesLinks (J.inspected judge.now) (J.compared judge.now) ((keeper : K) → K.fault_count keeper ≡ 0)
        (λ link. record { input = D.Link.input link; written = D.Link.written link; faults = D.Link.fault_count link }) taken
        (record { rows = K.told desk.old; faults = K.fault_count desk.old }) (record { rows = K.told desk.new; faults = K.fault_count desk.new }) (D.told door.old) (D.told door.new) }
{
    let Ok(()) = print_serving(out, address) else {
        return 7;
    };
    let taken = serve_links(alloc, count, door, desk, judge);
    if taken.failed {
        return 6;
    }
    match print_served(out, taken.count) {
        Ok(()) => 0,
        Err(_) => 7,
    }
}

// The status where a desk can't start.
fn start_status(fault: StartFault) -> u8
    ensures { ((fault ≡ StartFault.Failed) × (result ≡ 6)) ⊎ ((fault ≡ StartFault.Memory) × (result ≡ 8)) }
{
    match fault {
        StartFault::Failed => 6,
        StartFault::Memory => 8,
    }
}

// Serves links over a store, and gives it back, also where the desk can't start.
fn serve_store<V: Vault, D: Door, O: Sink, J: Judge>(
    alloc: Global,
    address: &str,
    count: u32,
    out: &mut O,
    vault: &mut V,
    keeper: V::Keeper,
    door: &mut D,
    judge: &J,
) -> u8
    ensures statuses { (result ≡ 0) ⊎ ((result ≡ 6) ⊎ ((result ≡ 7) ⊎ (result ≡ 8))) }
    ensures sink_failed { result ≡ 7 → Rose (O.fault_count out.old) (O.fault_count out.new) }
    ensures sink_stands { result ≢ 7 → O.fault_count out.new ≡ O.fault_count out.old }
    ensures listens { D.is_listening door.new ≡ D.is_listening door.old }
    ensures failed { V.Keeper.fault_count keeper ≡ 0 → result ≡ 6
        → (Appended (O.taken out.old) [] (O.taken out.new) × (D.given door.new ≡ D.given door.old) × Rose (V.fault_count vault.old) (V.fault_count vault.new))
        ⊎ (Appended (O.taken out.old) (serving address.now) (O.taken out.new) × Rose (D.fault_count door.old) (D.fault_count door.new)) }
    ensures door_stands { result ≢ 6 → D.fault_count door.new ≡ D.fault_count door.old }
    ensures memory { result ≡ 8 → Appended (O.taken out.old) [] (O.taken out.new) × (D.given door.new ≡ D.given door.old) }
    ensures whole { result ≡ 0 → (taken : ℕ) × (taken ≤ count) × (D.given door.new ≡ D.given door.old + taken) × ((taken ≡ count) ⊎ (D.has_ended door.new ≡ true))
        × Appended (O.taken out.old) (serving address.now ++ served taken) (O.taken out.new) }
    ensures prefix { result ≡ 7 → (taken : ℕ) × (D.given door.new ≡ D.given door.old + taken) × AppendedFront (O.taken out.old) (serving address.now ++ served taken) (O.taken out.new) }
    ensures untouched { V.Keeper.fault_count keeper ≡ 0 → result ≢ 6 → D.given door.new ≡ D.given door.old → V.fault_count vault.new ≡ V.fault_count vault.old }
    ensures steady { ((keeper : V.Keeper) → V.Keeper.fault_count keeper ≡ 0) → V.fault_count vault.new ≡ V.fault_count vault.old }
    ensures served { (taken : ℕ) × (now : Stored) × (D.given door.new ≡ D.given door.old + taken) × (D.given_back door.new ≡ D.given_back door.old + taken)
        × ServesLinks (J.inspected judge.now) (J.compared judge.now) ((keeper : V.Keeper) → V.Keeper.fault_count keeper ≡ 0)
        (λ link. record { input = D.Link.input link; written = D.Link.written link; faults = D.Link.fault_count link }) taken
        (record { rows = V.Keeper.told keeper; faults = V.Keeper.fault_count keeper }) now (D.told door.old) (D.told door.new)
        × (now.faults ≢ 0 → Rose (V.fault_count vault.old) (V.fault_count vault.new)) }
{
    let mut desk = match Desk::start(alloc, keeper) {
        Ok(desk) => desk,
        Err((fault, keeper)) => {
            vault.give_back(keeper);
            return start_status(fault);
        }
    };
    let status = serve_over(alloc, address, count, out, door, &mut desk, judge);
    vault.give_back(desk.close());
    status
}

/// Serves so many connections at an address over the store of this name, and gives the status: 0 where there were so many or the
/// door has ended, 6 where the door, the vault or the desk's start failed, 7 where a write failed, and 8 where there was no memory
/// for the store or for the desk.
///
/// It prints `serving` and the address once the door listens and the desk has started, and at the end `served` and how many links
/// the door gave. A link is given back however it was served, and so is the store, also where the desk can't start.
pub fn serve<V: Vault, D: Door, O: Sink, J: Judge>(
    alloc: Global,
    address: &str,
    store: &str,
    count: u32,
    out: &mut O,
    vault: &mut V,
    door: &mut D,
    judge: &J,
) -> u8
    ensures statuses { (result ≡ 0) ⊎ ((result ≡ 6) ⊎ ((result ≡ 7) ⊎ (result ≡ 8))) }
    ensures sink_failed { result ≡ 7 → Rose (O.fault_count out.old) (O.fault_count out.new) }
    ensures sink_stands { result ≢ 7 → O.fault_count out.new ≡ O.fault_count out.old }
    ensures outside_failed { result ≡ 6 → Rose (V.fault_count vault.old) (V.fault_count vault.new) ⊎ Rose (D.fault_count door.old) (D.fault_count door.new) }
    ensures not_begun { result ≡ 6 → (Appended (O.taken out.old) [] (O.taken out.new) × (D.given door.new ≡ D.given door.old)
        × (((D.is_listening door.new ≡ false) × Rose (D.fault_count door.old) (D.fault_count door.new)) ⊎ Rose (V.fault_count vault.old) (V.fault_count vault.new)))
        ⊎ (Appended (O.taken out.old) (serving address.now) (O.taken out.new) × (D.is_listening door.new ≡ true) × Rose (D.fault_count door.old) (D.fault_count door.new)) }
    ensures door_failed { result ≡ 6 → D.given door.new ≢ D.given door.old → Rose (D.fault_count door.old) (D.fault_count door.new) }
    ensures door_stands { result ≢ 6 → D.fault_count door.new ≡ D.fault_count door.old }
    ensures vault_stands { result ≢ 6 → D.given door.new ≡ D.given door.old → V.fault_count vault.new ≡ V.fault_count vault.old }
    ensures steady_stands { V.IsSteady vault.old → result ≢ 6 → V.fault_count vault.new ≡ V.fault_count vault.old }
    ensures complete { ¬ (Rose (O.fault_count out.old) (O.fault_count out.new)) → ¬ (Rose (V.fault_count vault.old) (V.fault_count vault.new))
        → ¬ (Rose (D.fault_count door.old) (D.fault_count door.new)) → (result ≡ 0) ⊎ (result ≡ 8) }
    ensures memory { result ≡ 8 → Appended (O.taken out.old) [] (O.taken out.new) × (D.given door.new ≡ D.given door.old) }
    ensures listens { (result ≡ 0) ⊎ (result ≡ 7) → D.is_listening door.new ≡ true }
    ensures whole { result ≡ 0 → (taken : ℕ) × (taken ≤ count) × (D.given door.new ≡ D.given door.old + taken) × ((taken ≡ count) ⊎ (D.has_ended door.new ≡ true))
        × Appended (O.taken out.old) (serving address.now ++ served taken) (O.taken out.new) }
    ensures prefix { result ≡ 7 → (taken : ℕ) × (D.given door.new ≡ D.given door.old + taken) × AppendedFront (O.taken out.old) (serving address.now ++ served taken) (O.taken out.new) }
    ensures all_back { (taken : ℕ) × (D.given door.new ≡ D.given door.old + taken) × (D.given_back door.new ≡ D.given_back door.old + taken) }
    ensures served { (taken : ℕ) × (start : Stored) × (now : Stored) × (D.given door.new ≡ D.given door.old + taken) × IsGivenAs (V.told vault.old store.now) start.rows × (start.faults ≡ 0)
        × ServesLinks (J.inspected judge.now) (J.compared judge.now) (V.IsSteady vault.old)
        (λ link. record { input = D.Link.input link; written = D.Link.written link; faults = D.Link.fault_count link }) taken start now (D.told door.old) (D.told door.new)
        × (now.faults ≢ 0 → Rose (V.fault_count vault.old) (V.fault_count vault.new)) }
{
    let Ok(()) = door.listen(address) else {
        return 6;
    };
    match vault.keeper(alloc, store) {
        Ok(keeper) => serve_store(alloc, address, count, out, vault, keeper, door, judge),
        Err(VaultFault::Failed) => 6,
        Err(VaultFault::Memory) => 8,
    }
}
