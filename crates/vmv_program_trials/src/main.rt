//! Trials of the program: what it does with the words of the command line over a shelf, a sink, a vault and a door in memory.
#![tactic(auto)]

mod ask;
mod devices;
mod links;
mod settings;
mod show;
mod trials;

use devices::{Faultless, InMemory};
use std::process::ExitCode;
use trials::{Failing, Programs, Whole};
use vmv_cases::run_cases;
use vmv_program::run;

fn main(rt: HostRuntime) -> ExitCode {
    let alloc = rt.alloc();
    let Ok(first) = rt.clone() else {
        return ExitCode::from(8);
    };
    let Ok(second) = rt.clone() else {
        return ExitCode::from(8);
    };
    let failing = move |words: Vec<String>, devices: InMemory| {
        let mut devices = devices;
        let status = run(
            &first,
            alloc,
            &words,
            &mut devices.shelf,
            &mut devices.out,
            &mut devices.vault,
            &mut devices.door,
        );
        (devices, status)
    };
    let whole = move |words: Vec<String>, devices: Faultless| {
        let mut devices = devices;
        let status = run(
            &second,
            alloc,
            &words,
            &mut devices.shelf,
            &mut devices.out,
            &mut devices.vault,
            &mut devices.door,
        );
        (devices, status)
    };
    let Ok(failing) = Box::new(alloc, failing) else {
        return ExitCode::from(8);
    };
    let Ok(whole) = Box::new(alloc, whole) else {
        return ExitCode::from(8);
    };
    let failing: Failing = failing;
    let whole: Whole = whole;
    run_cases(&rt, alloc, &Programs { failing, whole })
}
