ghost use Rattle.std.specs.Prelude.{◌≡◌, ◌≢◌, ◌≤◌, IfOk};
ghost use Rattle.std.proofs.Props.{props};
ghost use Rattle.vmv_command.specs.declared.output.Stop.TheVariants.{Memory};
ghost use Rattle.vmv_edge.specs.Outside.{Rose, Appended, AppendedFront};

use std::alloc::{AllocError, Global};
use vmv_edge::{Sink, Text, write_all};

/// What a command prints, and its status.
#[derive(Debug, Drop)]
pub(crate) struct Output {
    pub(crate) text: Text,
    pub(crate) status: u8,
    ghost known: { status ≤ 9 } by { Prim.hlevel props },
}

impl Output {
    /// A constant text.
    pub(crate) fn of(alloc: Global, text: &[u8], status: u8) -> Result<Output, AllocError>
        requires { status ≤ 9 }
        ensures text { IfOk result (λ output. output.text ≡ text.now) }
        ensures status { IfOk result (λ output. output.status ≡ status) }
    {
        let text = Text::from_slice(alloc, text)?;
        Ok(Output { text, status })
    }
}

/// Why a command has no output.
#[derive(Clone, Copy, PartialEq, Eq, Debug)]
pub(crate) enum Stop {
    /// A read failed.
    Failed,
    /// There was no memory.
    Memory,
}

impl From<AllocError> for Stop {
    ghost from_gives = { λ _ stop. stop ≡ Memory };

    fn from(_error: AllocError) -> Stop {
        Stop::Memory
    }
}

/// Prints the text, and gives the status, or 7 where a write failed.
pub(crate) fn print<O: Sink>(out: &mut O, text: &[u8], status: u8) -> u8
    requires { status ≢ 7 }
    ensures status { result ≢ 7 → result ≡ status }
    ensures written { result ≢ 7 → Appended (O.taken out.old) text.now (O.taken out.new) }
    ensures stands { result ≢ 7 → O.fault_count out.new ≡ O.fault_count out.old }
    ensures prefix { result ≡ 7 → AppendedFront (O.taken out.old) text.now (O.taken out.new) }
    ensures failed { result ≡ 7 → Rose (O.fault_count out.old) (O.fault_count out.new) }
{
    match write_all(out, text) {
        Ok(()) => status,
        Err(_) => 7,
    }
}
