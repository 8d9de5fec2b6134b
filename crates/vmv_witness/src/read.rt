ghost use Rattle.std.specs.Prelude.{◌≡◌, ◌+◌, ◌<◌, ◌≤◌, ◌^◌, length, codes, IfOk, IfErr};
ghost use Rattle.vmv_witness.specs.Text.{param_pair, answer_pair, IsTextOf};
ghost use Rattle.vmv_witness.specs.Faults.{IsWhy};
ghost use Rattle.vmv_witness.specs.Reading.{ReadsPairs};

use crate::fault::WitnessFault;
use crate::lines::Lines;
use crate::witness::{ParamValue, Values, Witness};
use std::alloc::Global;
use vmv_run::{Answer, Answers};

/// The most bytes that a witness text has.
const MOST: usize = 1_048_576;

/// Reads the lines of the parameters, of which the first is line 4.
fn read_params(alloc: Global, lines: &mut Lines) -> Result<Values, WitnessFault>
    requires { length lines.old ≤ 1048576 }
    ensures { ReadsPairs param_pair (codes "param ") 4 lines.old lines.new result }
{
    let mut params = Values::new(alloc);
    loop {
        match lines.take_pair(b"param ") {
            Ok(Some((name, value))) => params.push(ParamValue { name, value })?,
            Ok(None) => return Ok(params),
            Err(ill) => return Err(ill.at(4 + params.len())),
        }
    }
}

/// Reads the lines of the answers, of which the first is that of this number.
fn read_answers(alloc: Global, first: usize, lines: &mut Lines) -> Result<Answers, WitnessFault>
    requires { first + length lines.old ≤ 1048580 }
    ensures { ReadsPairs answer_pair (codes "answer ") first lines.old lines.new result }
{
    let mut answers = Answers::new(alloc);
    loop {
        match lines.take_pair(b"answer ") {
            Ok(Some((name, value))) => answers.push(Answer { name, value })?,
            Ok(None) => return Ok(answers),
            Err(ill) => return Err(ill.at(first + answers.len())),
        }
    }
}

/// The witness that the text is of. It fails exactly where the text is of none, with the first line that departs, or is
/// too long, and for want of memory.
pub fn read_witness(alloc: Global, text: &[u8]) -> Result<Witness, WitnessFault>
    ensures ok { IfOk result (λ witness. (length text.now ≤ 1048576) × IsTextOf text.now witness) }
    ensures fault { IfErr result (IsWhy text.now) }
{
    if text.len() > MOST {
        return Err(WitnessFault::Limit { found: text.len() });
    }
    let mut lines = Lines::new(text);
    if !lines.take_line(b"vmv-witness 1") {
        return Err(WitnessFault::Syntax { line: 1 });
    }
    let entry = lines.take_entry()?;
    let site = lines.take_site()?;
    let params = read_params(alloc, &mut lines)?;
    let first = 4 + params.len();
    let answers = read_answers(alloc, first, &mut lines)?;
    lines.take_end(first + answers.len())?;
    Ok(Witness {
        entry,
        params,
        answers,
        site,
    })
}
