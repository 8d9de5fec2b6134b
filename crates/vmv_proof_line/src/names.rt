ghost use Rattle.std.specs.Prelude.{◌↔◌, IsTrue};
ghost use Rattle.vmv_witness.specs.Reading.{lacks};
ghost use Rattle.vmv_proof_words.specs.Taking.{Tells};
ghost use Rattle.vmv_proof_text.specs.Parts.{opening_part, plain_part, given_part, end_part};
ghost use Rattle.vmv_proof_text.specs.Lines.{IsLine};
ghost use Rattle.vmv_proof_line.specs.Reading.{ReadsLine};
ghost use Rattle.vmv_proof_line.specs.Shapes.{IsNameLine};

use crate::fault::LineFault;
use vmv_proof_words::Words;
use vmv_tree::Name;

/// The name behind this word.
fn told_name(line: &[u8], word: &[u8]) -> Option<Name>
    requires { IsTrue (lacks 32 word.now) }
    ensures { Tells (IsNameLine word.now) line.now result }
{
    let Some(mut words) = Words::behind(line, word) else {
        return None;
    };
    let Some(name) = words.next_name() else {
        return None;
    };
    if !words.is_done() {
        return None;
    }
    Some(name)
}

/// Reads the name of an entry whose table under the whole assumption follows.
pub fn read_plain(line: &[u8]) -> Result<Name, LineFault>
    ensures { ReadsLine (λ entry. plain_part entry) line.now result }
{
    match told_name(line, b"plain") {
        Some(name) => Ok(name),
        None => Err(LineFault::Form),
    }
}

/// Whether the line tells that this entry's table under the cut assumption follows.
pub fn is_given(line: &[u8], entry: &Name) -> bool
    ensures { IsTrue result ↔ IsLine (given_part entry.now) line.now }
{
    match told_name(line, b"given") {
        Some(name) => name.bytes() == entry.bytes(),
        None => false,
    }
}

/// Whether the line is the first of a proof.
pub fn is_opening(line: &[u8]) -> bool
    ensures { IsTrue result ↔ IsLine opening_part line.now }
{
    line == b"vmv-proof 1".as_slice()
}

/// Whether the line is the last of a proof.
pub fn is_end(line: &[u8]) -> bool
    ensures { IsTrue result ↔ IsLine end_part line.now }
{
    line == b"end".as_slice()
}
