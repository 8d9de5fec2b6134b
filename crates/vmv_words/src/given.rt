ghost use Rattle.std.specs.Prelude.{◌≡◌, map, option_map, unwrap_or, IfOk, MatchOption, codes, []};
ghost use Rattle.std.specs.String.{string_bytes};
ghost use Rattle.clap.specs.Words.{found_of, matched_of, raw_values};
ghost use Rattle.vmv_words.specs.Requests.{given_of, GivesNothing, GivesJust};

use crate::count::count;
use crate::matches::matches;
use clap::ArgMatches;
use std::alloc::{AllocError, Global};

/// What stands behind the word of a command: names of texts, in order, and options.
#[derive(Debug, Drop)]
pub(crate) struct Given<'a> {
    pub(crate) names: Vec<&'a str>,
    pub(crate) workers: Option<u32>,
    pub(crate) proof: bool,
}

// The names among the words, in order.
fn names<'a>(alloc: Global, found: &ArgMatches<'a>) -> Result<Vec<&'a str>, AllocError>
    ensures { IfOk result (λ names. map (λ name. name.now) names.items ≡ unwrap_or (option_map raw_values (matched_of (found_of found.now) (codes "name"))) []) }
{
    match found.get_raw("name") {
        Some(names) => Vec::from_slice(alloc, names),
        None => Ok(Vec::new(alloc)),
    }
}

/// Names and options, where the words are such.
pub(crate) fn read_given<'a>(
    alloc: Global,
    words: &'a [String],
) -> Result<Option<Given<'a>>, AllocError>
    ensures { IfOk result (λ found. MatchOption found (GivesNothing (map string_bytes words.now)) (λ g. GivesJust (map string_bytes words.now) (given_of g))) }
{
    let Some(found) = matches(alloc, words)? else {
        return Ok(None);
    };
    let workers = match found.get_str("workers") {
        Some(word) => {
            let Some(number) = count(word) else {
                return Ok(None);
            };
            Some(number)
        }
        None => None,
    };
    let names = names(alloc, &found)?;
    let proof = found.get_flag("proof");
    Ok(Some(Given {
        names,
        workers,
        proof,
    }))
}
