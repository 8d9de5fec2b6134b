ghost use Rattle.std.specs.Prelude.{◌≡◌, ◌≢◌, [], map, IfOk, MatchOption};
ghost use Rattle.std.specs.String.{string_bytes};
ghost use Rattle.clap.specs.Words.{app_of, fault_of, found_of, rows_of, matches_of};
ghost use Rattle.vmv_words.specs.Clap.{app};

use clap::error::ErrorKind;
use clap::{Arg, ArgAction, ArgMatches, Command};
use std::alloc::{AllocError, Global};

// Names, the option `--workers N` and the flag `--proof`.
fn names_and_options<'a>(alloc: Global) -> Result<Command<'a>, AllocError>
    ensures { IfOk result (λ command. app_of command ≡ app) }
{
    let names = Arg::new(alloc, "name").action(ArgAction::Append);
    let workers = Arg::new(alloc, "workers").long("workers");
    let proof = Arg::new(alloc, "proof")
        .long("proof")
        .action(ArgAction::SetTrue);
    Command::new(alloc, "vmv")
        .no_binary_name(true)
        .disable_help_flag(true)
        .arg(names)?
        .arg(workers)?
        .arg(proof)
}

/// What clap finds in the words behind the word of a command, or None where it refuses them.
pub(crate) fn matches<'a>(
    alloc: Global,
    words: &'a [String],
) -> Result<Option<ArgMatches<'a>>, AllocError>
    ensures { IfOk result (λ found. MatchOption found (fault_of app (map string_bytes words.now) ≢ [])
        (λ m. (fault_of app (map string_bytes words.now) ≡ []) × (rows_of (found_of m) ≡ matches_of app (map string_bytes words.now)))) }
{
    let command = names_and_options(alloc)?;
    match command.try_get_matches_from(words) {
        Ok(found) => Ok(Some(found)),
        Err(error) => {
            if error.kind() == ErrorKind::OutOfMemory {
                return Err(AllocError);
            }
            Ok(None)
        }
    }
}
