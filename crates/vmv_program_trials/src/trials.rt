use crate::ask::Ask;
use crate::devices::{Devices, Faultless, InMemory, faultless, in_memory};
use crate::show::{put_count, put_links, put_printed};
use std::alloc::{AllocError, Global};
use std::str;
use vmv_cases::{Case, Sheet, Trial};
use vmv_door::Door;
use vmv_edge::{Shelf, Sink};
use vmv_vault::Vault;

/// Does what words say over things of which some calls fail: these things behind it, and the status.
pub(crate) type Failing = Box<dyn Fn(Vec<String>, InMemory) -> (InMemory, u8) + Drop>;

/// Does what words say over things that never fail: these things behind it, and the status.
pub(crate) type Whole = Box<dyn Fn(Vec<String>, Faultless) -> (Faultless, u8) + Drop>;

/// Trials of the program.
#[derive(Drop)]
pub(crate) struct Programs {
    /// Runs it where some calls fail.
    pub(crate) failing: Failing,
    /// Runs it where none does.
    pub(crate) whole: Whole,
    // each does whatever words say
    ghost failing_callable: { Failing.IsAlwaysCallable failing },
    ghost whole_callable: { Whole.IsAlwaysCallable whole },
}

/// The words of a command line. One that isn't UTF-8 is empty.
fn words_of(alloc: Global, line: &[u8]) -> Result<Vec<String>, AllocError> {
    let mut words = Vec::new(alloc);
    if line.is_empty() {
        return Ok(words);
    }
    for word in line.split(|byte| *byte == b' ') {
        let word = str::from_utf8(word).unwrap_or("");
        words.push(String::from_str(alloc, word)?)?;
    }
    Ok(words)
}

/// Writes a status.
fn put_status(status: u8, sheet: &mut Sheet) {
    put_count(b"status", &status, sheet);
    sheet.put(b"\n");
}

/// Writes which things have counted how many faults.
fn put_faults<F: Shelf, O: Sink, V: Vault, D: Door>(
    devices: &Devices<F, O, V, D>,
    sheet: &mut Sheet,
) {
    put_count(b"faults: shelf", &devices.shelf.faults(), sheet);
    put_count(b", sink", &devices.out.faults(), sheet);
    put_count(b", vault", &devices.vault.faults(), sheet);
    put_count(b", door", &devices.door.faults(), sheet);
    sheet.put(b"\n");
}

/// Writes whether a door listens, and how many of its links were given, were given back and are left.
fn put_door(listens: bool, links: usize, left: usize, back: usize, sheet: &mut Sheet) {
    put_count(b"listens", &listens, sheet);
    put_count(b", given", &links.saturating_sub(left), sheet);
    put_count(b", given back", &back, sheet);
    put_count(b", left", &left, sheet);
    sheet.put(b"\n");
}

impl Programs {
    /// Does what an ask says over things of which some calls fail.
    fn put_failing(
        &self,
        alloc: Global,
        case: &Case,
        ask: &Ask,
        sheet: &mut Sheet,
    ) -> Result<(), AllocError> {
        let words = words_of(alloc, ask.words)?;
        let mut devices = in_memory(alloc, case, ask, &words, sheet)?;
        for _ in 0..ask.times {
            let (behind, status) = (self.failing)(words_of(alloc, ask.words)?, devices);
            devices = behind;
            put_status(status, sheet);
        }
        put_faults(&devices, sheet);
        let door = &devices.door;
        put_door(
            door.listens(),
            devices.links,
            door.left(),
            door.back().len(),
            sheet,
        );
        put_printed(Some(devices.out.bytes()), sheet);
        put_links(door.back(), sheet);
        Ok(())
    }

    /// Does what an ask says over things that never fail.
    fn put_whole(
        &self,
        alloc: Global,
        case: &Case,
        ask: &Ask,
        sheet: &mut Sheet,
    ) -> Result<(), AllocError> {
        let words = words_of(alloc, ask.words)?;
        let mut devices = faultless(alloc, case, &words, sheet)?;
        for _ in 0..ask.times {
            let (behind, status) = (self.whole)(words_of(alloc, ask.words)?, devices);
            devices = behind;
            put_status(status, sheet);
        }
        put_faults(&devices, sheet);
        let door = &devices.door;
        put_door(
            door.listens(),
            devices.links,
            door.left(),
            door.back().len(),
            sheet,
        );
        put_printed(devices.out.bytes(), sheet);
        put_links(door.back(), sheet);
        Ok(())
    }
}

impl Trial for Programs {
    fn answer(&self, alloc: Global, case: &Case, ask: &[u8], sheet: &mut Sheet) {
        let Some(ask) = Ask::read(ask) else {
            return sheet.refuse();
        };
        let done = if ask.is_whole {
            self.put_whole(alloc, case, &ask, sheet)
        } else {
            self.put_failing(alloc, case, &ask, sheet)
        };
        if done.is_err() {
            sheet.fall_short();
        }
    }
}
