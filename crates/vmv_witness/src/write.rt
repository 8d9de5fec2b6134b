ghost use Rattle.std.specs.Prelude.{◌≡◌, ◌++◌, ◌∷◌, [], OnOk, IfOk, map};
ghost use Rattle.std.specs.Fmt.{decimal, signed_decimal};
ghost use Rattle.vmv_witness.specs.Text.{pair_line, param_lines, answer_lines, entry_line, site_line, text_of, param_pair, answer_pair, witness_text};

use crate::witness::{ParamValue, Witness};
use std::alloc::{AllocError, Global};
use vmv_edge::Text;
use vmv_run::Answer;
use vmv_tree::{Name, NamedSite};

/// Writes the line of an entry.
#[tactic(auto, using(crate::proofs::Writing::writing))]
fn push_entry(out: &mut Vec<u8>, entry: &Name) -> Result<(), AllocError>
    ensures { OnOk result (out.new.items ≡ out.old.items ++ text_of (entry_line entry.now ∷ [])) }
{
    out.extend_from_slice(b"entry ")?;
    out.extend_from_slice(entry.bytes())?;
    out.extend_from_slice(b"\n")
}

/// Writes the line of a site.
#[tactic(auto, using(crate::proofs::Writing::writing))]
fn push_site(alloc: Global, out: &mut Vec<u8>, site: &NamedSite) -> Result<(), AllocError>
    ensures { OnOk result (out.new.items ≡ out.old.items ++ text_of (site_line site.now.proc (decimal site.now.index) ∷ [])) }
{
    let number = format!(in alloc; "{}", site.index)?;
    out.extend_from_slice(b"site ")?;
    out.extend_from_slice(site.proc.bytes())?;
    out.extend_from_slice(b"#")?;
    out.extend_from_slice(number.as_bytes())?;
    out.extend_from_slice(b"\n")
}

/// Writes a line of a word, a name and a value.
#[tactic(auto, using(crate::proofs::Writing::writing))]
fn push_pair(
    alloc: Global,
    out: &mut Vec<u8>,
    word: &[u8],
    name: &Name,
    value: i64,
) -> Result<(), AllocError>
    ensures { OnOk result (out.new.items ≡ out.old.items ++ text_of (pair_line word.now (name.now, signed_decimal value) ∷ [])) }
{
    let number = format!(in alloc; "{value}")?;
    out.extend_from_slice(word)?;
    out.extend_from_slice(name.bytes())?;
    out.extend_from_slice(b" ")?;
    out.extend_from_slice(number.as_bytes())?;
    out.extend_from_slice(b"\n")
}

/// Writes the lines of the parameters.
#[tactic(auto, using(crate::proofs::Writing::writing))]
fn push_params(alloc: Global, out: &mut Vec<u8>, params: &[ParamValue]) -> Result<(), AllocError>
    ensures { OnOk result (out.new.items ≡ out.old.items ++ text_of (param_lines (map param_pair params.now))) }
{
    for param in params {
        push_pair(alloc, out, b"param ", &param.name, param.value)?;
    }
    Ok(())
}

/// Writes the lines of the answers.
#[tactic(auto, using(crate::proofs::Writing::writing))]
fn push_answers(alloc: Global, out: &mut Vec<u8>, answers: &[Answer]) -> Result<(), AllocError>
    ensures { OnOk result (out.new.items ≡ out.old.items ++ text_of (answer_lines (map answer_pair answers.now))) }
{
    for answer in answers {
        push_pair(alloc, out, b"answer ", &answer.name, answer.value)?;
    }
    Ok(())
}

/// The canonical text of a witness. It fails where there is no memory.
#[tactic(auto, using(crate::proofs::Writing::writing))]
pub fn write_witness(alloc: Global, witness: &Witness) -> Result<Text, AllocError>
    ensures { IfOk result (λ text. text ≡ witness_text witness.now) }
{
    let mut out = Vec::new(alloc);
    out.extend_from_slice(b"vmv-witness 1\n")?;
    push_entry(&mut out, &witness.entry)?;
    push_site(alloc, &mut out, &witness.site)?;
    push_params(alloc, &mut out, witness.params.as_slice())?;
    push_answers(alloc, &mut out, witness.answers.as_slice())?;
    out.extend_from_slice(b"end\n")?;
    Ok(Text::from_vec(out))
}
