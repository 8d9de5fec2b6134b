ghost use Rattle.std.specs.Prelude.{◌≡◌, ◌≢◌, IfOk, ◌≤◌};
ghost use Rattle.std.specs.String.{string_bytes};
ghost use Rattle.vmv_command.specs.Faults.{program_limit, procedure_limit, entry_limit, limit_word, defect_text, place_end, fault_end, defect_status, fault_status, SaysFault};

use crate::output::Output;
use std::alloc::{AllocError, Global};
use vmv_edge::Text;
use vmv_source::TextFault;
use vmv_tree::Defect;

fn program_limit(which: u8) -> &'static str
    ensures { result.now ≡ program_limit which }
{
    match which {
        1 => "outside",
        2 => "helpers",
        3 => "entries",
        _ => "arity",
    }
}

fn procedure_limit(which: u8) -> &'static str
    ensures { result.now ≡ procedure_limit which }
{
    match which {
        5 => "variables",
        6 => "statements",
        7 => "nesting",
        _ => "depth",
    }
}

fn entry_limit(which: u8) -> &'static str
    ensures { result.now ≡ entry_limit which }
{
    match which {
        9 => "numbers",
        10 => "paths",
        11 => "steps",
        _ => "calls",
    }
}

fn limit_word(which: u8) -> &'static str
    ensures { result.now ≡ limit_word which }
{
    if which <= 4 {
        return program_limit(which);
    }
    if which <= 8 {
        return procedure_limit(which);
    }
    entry_limit(which)
}

fn limit_text(alloc: Global, which: u8, found: u64, most: u64) -> Result<String, AllocError>
    ensures { IfOk result (λ text. string_bytes text ≡ defect_text (Defect.Limit which found most)) }
{
    let word = limit_word(which);
    format!(in alloc; "limit {word} found {found} most {most}")
}

fn defect_text(alloc: Global, defect: Defect) -> Result<String, AllocError>
    ensures { IfOk result (λ text. string_bytes text ≡ defect_text defect) }
{
    match defect {
        Defect::UnknownName => String::from_str(alloc, "unknown name"),
        Defect::Repeated => String::from_str(alloc, "repeated name"),
        Defect::ArityWrong => String::from_str(alloc, "wrong number of arguments"),
        Defect::IndexAssigned => String::from_str(alloc, "loop index assigned"),
        Defect::RangeEmpty => String::from_str(alloc, "empty range"),
        Defect::Limit { which, found, most } => limit_text(alloc, which, found, most),
    }
}

fn place_end(alloc: Global, line: u32, column: u32) -> Result<String, AllocError>
    ensures { IfOk result (λ end. string_bytes end ≡ place_end line column) }
{
    format!(in alloc; " at line {line} column {column}\n")
}

// What the line of a fault has behind the name of the text.
fn fault_end(alloc: Global, fault: TextFault) -> Result<String, AllocError>
    ensures end { IfOk result (λ end. string_bytes end ≡ fault_end fault) }
    ensures told { IfOk result (λ _. fault ≢ TextFault.Memory) }
{
    match fault {
        TextFault::NotUtf8 { at } => format!(in alloc; ": not UTF-8 at byte {at}\n"),
        TextFault::Syntax { line, column } => {
            let place = place_end(alloc, line, column)?;
            format!(in alloc; ": syntax{place}")
        }
        TextFault::Defect {
            line,
            column,
            defect,
        } => {
            let place = place_end(alloc, line, column)?;
            let text = defect_text(alloc, defect)?;
            format!(in alloc; ": {text}{place}")
        }
        TextFault::TooLong { found } => {
            format!(in alloc; ": limit bytes found {found} most 1048576\n")
        }
        TextFault::Memory => Err(AllocError),
    }
}

fn defect_status(defect: Defect) -> u8
    ensures same { result ≡ defect_status defect }
    ensures known { result ≤ 9 }
{
    match defect {
        Defect::UnknownName
        | Defect::Repeated
        | Defect::ArityWrong
        | Defect::IndexAssigned
        | Defect::RangeEmpty => 4,
        Defect::Limit { .. } => 5,
    }
}

fn fault_status(fault: TextFault) -> u8
    ensures same { result ≡ fault_status fault }
    ensures known { result ≤ 9 }
{
    match fault {
        TextFault::NotUtf8 { .. } | TextFault::Syntax { .. } => 4,
        TextFault::Defect { defect, .. } => defect_status(defect),
        TextFault::TooLong { .. } => 5,
        TextFault::Memory => 8,
    }
}

/// The line of a fault of the text that is called so. There is none for want of memory.
pub(crate) fn fault_output(
    alloc: Global,
    name: &str,
    fault: TextFault,
) -> Result<Output, AllocError>
    ensures says { IfOk result (λ output. SaysFault name.now fault output.text output.status) }
    ensures told { IfOk result (λ _. fault ≢ TextFault.Memory) }
{
    let end = fault_end(alloc, fault)?;
    let mut text = Vec::from_slice(alloc, name.as_bytes())?;
    text.extend_from_slice(end.as_bytes())?;
    Ok(Output {
        text: Text::from_vec(text),
        status: fault_status(fault),
    })
}
