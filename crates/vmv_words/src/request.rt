ghost use Rattle.std.specs.Prelude.{◌≡◌, None, false, codes, map, IfOk, MatchBool, MatchOption};
ghost use Rattle.std.specs.String.{string_bytes};
ghost use Rattle.vmv_words.specs.Words.{Asks, AsksNothing};
ghost use Rattle.vmv_words.specs.Words.{IsFor};
ghost use Rattle.vmv_words.specs.Requests.{request_of, given_of, IsForNone};

use crate::count::number;
use crate::given::{Given, read_given};
use std::alloc::{AllocError, Global};

/// What the program is asked to do. The texts are named by words.
#[derive(Clone, Copy, Debug, Drop)]
pub enum Request<'a> {
    /// The review of a revision against its base by so many workers, from 1 to 64, with its proof where that is wanted.
    Review {
        base: &'a str,
        revision: &'a str,
        workers: u32,
        proof: bool,
    },
    /// The conditions of a base, found by so many workers.
    Baseline {
        base: &'a str,
        workers: u32,
    },
    /// The check of a proof of a revision against its base.
    Recheck {
        base: &'a str,
        revision: &'a str,
        proof: &'a str,
    },
    /// The replay of a witness over a revision.
    Replay {
        revision: &'a str,
        witness: &'a str,
    },
    /// The review of the sample of this number by so many workers.
    Sample {
        number: u64,
        workers: u32,
    },
}

// A review takes two names, and both options.
fn review<'a>(given: &Given<'a>) -> Option<Request<'a>>
    ensures { MatchOption result (IsForNone (codes "review") (given_of given.now)) (λ request. IsFor (codes "review") (given_of given.now) (request_of request)) }
{
    let [base, revision] = given.names.as_slice() else {
        return None;
    };
    Some(Request::Review {
        base: *base,
        revision: *revision,
        workers: given.workers.unwrap_or(1),
        proof: given.proof,
    })
}

// A baseline takes one name, and the number of workers.
fn baseline<'a>(given: &Given<'a>) -> Option<Request<'a>>
    ensures { MatchOption result (IsForNone (codes "baseline") (given_of given.now)) (λ request. IsFor (codes "baseline") (given_of given.now) (request_of request)) }
{
    let [base] = given.names.as_slice() else {
        return None;
    };
    if given.proof {
        return None;
    }
    Some(Request::Baseline {
        base: *base,
        workers: given.workers.unwrap_or(1),
    })
}

// Whether no option was given.
fn is_bare(given: &Given) -> bool
    ensures { MatchBool result ((given.now.workers ≡ None) × (given.now.proof ≡ false)) ((given.now.workers ≡ None) → (given.now.proof ≡ false) → ⊥) }
{
    given.workers.is_none() && !given.proof
}

// A check of a proof takes three names.
fn recheck<'a>(given: &Given<'a>) -> Option<Request<'a>>
    ensures { MatchOption result (IsForNone (codes "recheck") (given_of given.now)) (λ request. IsFor (codes "recheck") (given_of given.now) (request_of request)) }
{
    let [base, revision, proof] = given.names.as_slice() else {
        return None;
    };
    if !is_bare(given) {
        return None;
    }
    Some(Request::Recheck {
        base: *base,
        revision: *revision,
        proof: *proof,
    })
}

// A replay takes two names.
fn replay<'a>(given: &Given<'a>) -> Option<Request<'a>>
    ensures { MatchOption result (IsForNone (codes "replay") (given_of given.now)) (λ request. IsFor (codes "replay") (given_of given.now) (request_of request)) }
{
    let [revision, witness] = given.names.as_slice() else {
        return None;
    };
    if !is_bare(given) {
        return None;
    }
    Some(Request::Replay {
        revision: *revision,
        witness: *witness,
    })
}

// A sample takes its number in place of a name, and the number of workers.
fn sample<'a>(given: &Given<'a>) -> Option<Request<'a>>
    ensures { MatchOption result (IsForNone (codes "sample") (given_of given.now)) (λ request. IsFor (codes "sample") (given_of given.now) (request_of request)) }
{
    let [word] = given.names.as_slice() else {
        return None;
    };
    let (Some(number), false) = (number(*word), given.proof) else {
        return None;
    };
    Some(Request::Sample {
        number,
        workers: given.workers.unwrap_or(1),
    })
}

// What the word of a command is for, with what stands behind it.
fn request_for<'a>(command: &str, given: &Given<'a>) -> Option<Request<'a>>
    ensures { MatchOption result (IsForNone command.now (given_of given.now)) (λ request. IsFor command.now (given_of given.now) (request_of request)) }
{
    match command {
        "review" => review(given),
        "baseline" => baseline(given),
        "recheck" => recheck(given),
        "replay" => replay(given),
        "sample" => sample(given),
        _ => None,
    }
}

/// What the words behind the program's name ask for, or None where they ask for nothing that there is. It fails for want of
/// memory alone.
pub fn read_words<'a>(alloc: Global, words: &'a [String]) -> Result<Option<Request<'a>>, AllocError>
    ensures { IfOk result (λ found. MatchOption found (AsksNothing (map string_bytes words.now)) (λ request. Asks (map string_bytes words.now) (request_of request))) }
{
    let [command, rest @ ..] = words else {
        return Ok(None);
    };
    let Some(given) = read_given(alloc, rest)? else {
        return Ok(None);
    };
    Ok(request_for(command.as_str(), &given))
}
