ghost use Rattle.std.specs.Prelude.{◌≡◌, ◌+◌, ◌-◌, ◌==◌, ◌≤◌, length, take, count_by, IfOk, IfErr};
ghost use Rattle.vmv_proof_text.specs.Faults.{IsProofText};
ghost use Rattle.vmv_proof_read.specs.Why.{IsWhy, AreFew};

use crate::fault::ProofFault;
use crate::lines::Lines;
use crate::proof::read_lines;
use std::alloc::Global;
use vmv_proof::Proof;
use vmv_proof_line::LineFault;

/// The most bytes that the text of a proof has.
const MOST: usize = 67_108_864;

/// The number of the line with which the rest of a text begins.
fn line_number(text: &[u8], rest: &[u8]) -> u32
    requires few { length text.now ≤ 67108864 }
    requires within { length rest.now ≤ length text.now }
    ensures { result ≡ count_by (λ b. b == 10) (take (length text.now - length rest.now) text.now) + 1 }
{
    let before = &text[..text.len() - rest.len()];
    let ends = before.iter().filter(|b| **b == b'\n').count();
    ends as u32 + 1
}

/// The proof that the text is of. It fails exactly where the text is of none, with the first line that departs, or is too
/// long, and for want of memory.
pub fn read_proof(alloc: Global, text: &[u8]) -> Result<Proof, ProofFault>
    ensures ok { IfOk result (λ proof. (length text.now ≤ 67108864) × IsProofText text.now proof) }
    ensures fault { IfErr result (IsWhy text.now) }
    ensures few { IfOk result AreFew }
{
    if text.len() > MOST {
        return Err(ProofFault::Limit { found: text.len() });
    }
    let mut lines = Lines::new(text);
    match read_lines(alloc, &mut lines) {
        Ok(proof) => {
            if lines.is_at_end() {
                return Ok(proof);
            }
            let line = line_number(text, lines.rest());
            Err(ProofFault::Syntax { line })
        }
        Err(LineFault::Form) => {
            let line = line_number(text, lines.rest());
            Err(ProofFault::Syntax { line })
        }
        Err(LineFault::Size) => {
            let line = line_number(text, lines.rest());
            Err(ProofFault::Range { line })
        }
        Err(LineFault::Memory) => Err(ProofFault::Memory),
    }
}
