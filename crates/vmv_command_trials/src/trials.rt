use crate::ask::Ask;
use crate::devices::{Devices, devices_of};
use std::alloc::{AllocError, Global};
use std::str;
use vmv_cases::{Case, Sheet, Trial};
use vmv_edge::MemorySink;

/// Runs a command: of its words and the devices, the sink that it has written to, and its status.
pub type Runner = Box<dyn Fn(Vec<String>, Devices) -> (MemorySink, u8) + Drop>;

/// Trials of commands.
#[derive(Drop)]
pub struct Commands {
    /// Runs them.
    pub runner: Runner,
    // it runs any command
    ghost callable: { Runner.IsAlwaysCallable runner },
}

/// The words of a command. One that isn't UTF-8 is empty.
fn words_of(alloc: Global, line: &[u8]) -> Result<Vec<String>, AllocError> {
    let mut words = Vec::new(alloc);
    if line.is_empty() {
        return Ok(words);
    }
    for word in line.split(|byte| *byte == b' ') {
        let word = str::from_utf8(word).unwrap_or("");
        words.push(String::from_str(alloc, word)?)?;
    }
    Ok(words)
}

/// Writes what was printed, and the status.
fn tell(sheet: &mut Sheet, printed: &[u8], status: u8) {
    sheet.put(printed);
    if !printed.is_empty() && !printed.ends_with(b"\n") {
        sheet.put(b"\n\\end\n");
    }
    sheet.put(b"status ");
    sheet.show(&status);
    sheet.put(b"\n");
}

impl Commands {
    /// Runs a command over devices in memory, and writes what it has printed, and its status.
    fn tell_command(
        &self,
        alloc: Global,
        case: &Case,
        ask: &Ask,
        sheet: &mut Sheet,
    ) -> Result<(), AllocError> {
        let words = words_of(alloc, ask.words)?;
        let devices = devices_of(alloc, case, ask, &words)?;
        let (out, status) = (self.runner)(words, devices);
        tell(sheet, out.bytes(), status);
        Ok(())
    }
}

impl Trial for Commands {
    fn answer(&self, alloc: Global, case: &Case, ask: &[u8], sheet: &mut Sheet) {
        let Some(ask) = Ask::read(ask) else {
            return sheet.refuse();
        };
        if self.tell_command(alloc, case, &ask, sheet).is_err() {
            sheet.fall_short();
        }
    }
}
