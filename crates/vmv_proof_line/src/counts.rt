ghost use Rattle.std.specs.Prelude.{◌↔◌, ◌++◌, ◌∷◌, [], IsTrue};
ghost use Rattle.vmv_witness.specs.Reading.{lacks};
ghost use Rattle.vmv_proof_words.specs.Taking.{Tells};
ghost use Rattle.vmv_proof_text.specs.Parts.{exclusions_part, table_part, entries_part};
ghost use Rattle.vmv_proof_text.specs.Loose.{IsCountLoosely};
ghost use Rattle.vmv_proof_line.specs.Reading.{Reads, ReadsLine};
ghost use Rattle.vmv_proof_line.specs.Shapes.{IsCountLine};

use crate::fault::{LineFault, fault_of};
use vmv_proof_words::Words;

/// The number of 32 bits behind this word.
fn told_count(line: &[u8], word: &[u8]) -> Option<u32>
    requires { IsTrue (lacks 32 word.now) }
    ensures { Tells (IsCountLine word.now) line.now result }
{
    let Some(mut words) = Words::behind(line, word) else {
        return None;
    };
    words.last_count()
}

/// Whether a number of any size stands behind this word.
fn is_count_loosely(line: &[u8], word: &[u8]) -> bool
    requires { IsTrue (lacks 32 word.now) }
    ensures { IsTrue result ↔ IsCountLoosely (word.now ++ 32 ∷ []) line.now }
{
    let Some(mut words) = Words::behind(line, word) else {
        return false;
    };
    words.is_last_number()
}

/// Reads the number behind this word.
fn read_count(line: &[u8], word: &[u8]) -> Result<u32, LineFault>
    requires { IsTrue (lacks 32 word.now) }
    ensures { Reads (IsCountLine word.now) (λ n. IsCountLoosely (word.now ++ 32 ∷ [])) line.now result }
{
    match told_count(line, word) {
        Some(count) => Ok(count),
        None => Err(fault_of(is_count_loosely(line, word))),
    }
}

/// Reads how many exclusions follow.
pub fn read_exclusions(line: &[u8]) -> Result<u32, LineFault>
    ensures { ReadsLine (λ n. exclusions_part n) line.now result }
{
    read_count(line, b"exclusions")
}

/// Reads how many rows a table has.
pub fn read_table(line: &[u8]) -> Result<u32, LineFault>
    ensures { ReadsLine (λ n. table_part n) line.now result }
{
    read_count(line, b"table")
}

/// Reads how many entries follow.
pub fn read_entries(line: &[u8]) -> Result<u32, LineFault>
    ensures { ReadsLine (λ n. entries_part n) line.now result }
{
    read_count(line, b"entries")
}
