//! Trials of the commands, by texts: from the words of the command line to the printed bytes and the status.
#![tactic(auto)]

mod ask;
mod devices;
mod trials;

use devices::Devices;
use std::process::ExitCode;
use trials::{Commands, Runner};
use vmv_cases::run_cases;
use vmv_command::run_command;

fn main(rt: HostRuntime) -> ExitCode {
    let alloc = rt.alloc();
    let Ok(own) = rt.clone() else {
        return ExitCode::from(8);
    };
    let command = move |words: Vec<String>, devices: Devices| {
        let Devices { mut shelf, mut out } = devices;
        let status = run_command(&own, alloc, &words, &mut shelf, &mut out);
        (out, status)
    };
    let Ok(boxed) = Box::new(alloc, command) else {
        return ExitCode::from(8);
    };
    let runner: Runner = boxed;
    run_cases(&rt, alloc, &Commands { runner })
}
