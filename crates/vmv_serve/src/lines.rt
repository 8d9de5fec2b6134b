ghost use Rattle.std.specs.Prelude.{◌≡◌, OnOk, OnErr};
ghost use Rattle.vmv_edge.specs.Outside.{Rose, Appended, AppendedFront};
ghost use Rattle.vmv_serve.specs.Lines.{line_of, serving, served};

use itoa::Buffer;
use vmv_edge::{Failed, Sink, write_all};

/// Writes a word, what it says, and the end of the line. It takes no memory.
fn print_line<O: Sink>(out: &mut O, word: &[u8], said: &str) -> Result<(), Failed>
    ensures written { OnOk result (Appended (O.taken out.old) (line_of word.now said.now) (O.taken out.new)) }
    ensures stands { OnOk result (O.fault_count out.new ≡ O.fault_count out.old) }
    ensures prefix { OnErr result (AppendedFront (O.taken out.old) (line_of word.now said.now) (O.taken out.new)) }
    ensures failed { OnErr result (Rose (O.fault_count out.old) (O.fault_count out.new)) }
{
    write_all(out, word)?;
    write_all(out, said.as_bytes())?;
    write_all(out, b"\n")
}

/// Says at which address it is listened. It takes no memory.
pub(crate) fn print_serving<O: Sink>(out: &mut O, address: &str) -> Result<(), Failed>
    ensures written { OnOk result (Appended (O.taken out.old) (serving address.now) (O.taken out.new)) }
    ensures stands { OnOk result (O.fault_count out.new ≡ O.fault_count out.old) }
    ensures prefix { OnErr result (AppendedFront (O.taken out.old) (serving address.now) (O.taken out.new)) }
    ensures failed { OnErr result (Rose (O.fault_count out.old) (O.fault_count out.new)) }
{
    print_line(out, b"serving ", address)
}

/// Says how many connections were taken. It takes no memory.
pub(crate) fn print_served<O: Sink>(out: &mut O, count: u32) -> Result<(), Failed>
    ensures written { OnOk result (Appended (O.taken out.old) (served count) (O.taken out.new)) }
    ensures stands { OnOk result (O.fault_count out.new ≡ O.fault_count out.old) }
    ensures prefix { OnErr result (AppendedFront (O.taken out.old) (served count) (O.taken out.new)) }
    ensures failed { OnErr result (Rose (O.fault_count out.old) (O.fault_count out.new)) }
{
    let mut buffer = Buffer::new();
    print_line(out, b"served ", buffer.format(count))
}
