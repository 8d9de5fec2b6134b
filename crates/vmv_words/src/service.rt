ghost use Rattle.std.specs.Prelude.{map, IfOk, MatchOption, codes};
ghost use Rattle.std.specs.String.{string_bytes};
ghost use Rattle.vmv_words.specs.Services.{AsksService, AsksNoService, IsServiceFor};
ghost use Rattle.vmv_words.specs.Requests.{service_of, given_of, IsForNoService};

use crate::count::connections;
use crate::given::{Given, read_given};
use std::alloc::{AllocError, Global};

/// What the program is asked to serve.
#[derive(Clone, Copy, Debug, Drop)]
pub struct Service<'a> {
    /// The address at which connections are taken.
    pub address: &'a str,
    /// The name of the store.
    pub store: &'a str,
    /// The number of connections after which the program ends.
    pub count: u32,
    /// The number of workers of each review, from 1 to 64.
    pub workers: u32,
}

// A service takes an address, a store and a number of connections, and the number of workers.
fn asked_service<'a>(given: &Given<'a>) -> Option<Service<'a>>
    ensures { MatchOption result (IsForNoService (codes "serve") (given_of given.now)) (λ asked. IsServiceFor (codes "serve") (given_of given.now) (service_of asked)) }
{
    let [address, store, word] = given.names.as_slice() else {
        return None;
    };
    let (Some(count), false) = (connections(*word), given.proof) else {
        return None;
    };
    Some(Service {
        address: *address,
        store: *store,
        count,
        workers: given.workers.unwrap_or(1),
    })
}

// The service that the word of a command is for, with what stands behind it.
fn service_for<'a>(command: &str, given: &Given<'a>) -> Option<Service<'a>>
    ensures { MatchOption result (IsForNoService command.now (given_of given.now)) (λ asked. IsServiceFor command.now (given_of given.now) (service_of asked)) }
{
    match command {
        "serve" => asked_service(given),
        _ => None,
    }
}

/// The service that the words behind the program's name ask for, or None where they ask for no service. It fails for want
/// of memory alone.
pub fn read_service<'a>(
    alloc: Global,
    words: &'a [String],
) -> Result<Option<Service<'a>>, AllocError>
    ensures { IfOk result (λ found. MatchOption found (AsksNoService (map string_bytes words.now)) (λ asked. AsksService (map string_bytes words.now) (service_of asked))) }
{
    let [command, rest @ ..] = words else {
        return Ok(None);
    };
    let Some(given) = read_given(alloc, rest)? else {
        return Ok(None);
    };
    Ok(service_for(command.as_str(), &given))
}
