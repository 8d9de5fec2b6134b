//! A review gate for revisions of small procedural programs.
#![tactic(auto)]

use std::env;
use std::io::{Error, ErrorKind};
use std::process::ExitCode;
use vmv_edge::{FileShelf, StreamSink};
use vmv_program::run;
use vmv_sql_vault::SqlVault;
use vmv_tcp::TcpDoor;

// The words behind the program's name, or none where one of them isn't UTF-8.
fn given_words(rt: &HostRuntime) -> Result<Vec<String>, Error> {
    let mut words = Vec::new(rt.alloc());
    match env::args(rt) {
        Ok(args) => {
            for word in args.skip(1) {
                words.push(word)?;
            }
        }
        Err(error) if error.kind() == ErrorKind::OutOfMemory => return Err(error),
        Err(_) => {}
    }
    Ok(words)
}

fn main(rt: HostRuntime) -> ExitCode {
    let Ok(words) = given_words(&rt) else {
        return ExitCode::from(8);
    };
    let mut shelf = FileShelf::new(&rt);
    let mut out = StreamSink::new(rt.stdout());
    let status = run(
        &rt,
        rt.alloc(),
        &words,
        &mut shelf,
        &mut out,
        &mut SqlVault::new(&rt),
        &mut TcpDoor::new(&rt),
    );
    ExitCode::from(status)
}
