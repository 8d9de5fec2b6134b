ghost use Rattle.std.specs.Prelude.{◌≡◌, ◌↔◌, List, ◌∷◌, IsTrue};
ghost use Rattle.std.specs.Bool.{OnTrue, OnFalse};
ghost use Rattle.vmv_witness.specs.Numbers.{IsNumber};
ghost use Rattle.vmv_proof_words.specs.Words.{Word};
ghost use Rattle.vmv_proof_words.specs.Taking.{Tells};
ghost use Rattle.vmv_proof_text.specs.Parts.{exclude_part};
ghost use Rattle.vmv_proof_text.specs.Lines.{IsLine};
ghost use Rattle.vmv_proof_line.specs.Reading.{ReadsLine};
ghost use Rattle.vmv_proof_line.specs.Shapes.{IsExcludeLoosely, TakesPiece, TakesPieceLoosely};

use crate::fault::{LineFault, fault_of};
use vmv_cond::Piece;
use vmv_proof_words::Words;
use vmv_tree::Name;

/// The head of an exclusion.
#[derive(Clone, Copy)]
pub struct ExcludeHead {
    /// The entry.
    pub entry: Name,
    /// The outside name.
    pub name: Name,
    /// The words that are excluded.
    pub piece: Piece,
    /// How many of the exclusions before this one its table is judged under.
    pub under: u32,
}

/// Takes a piece.
fn next_piece(words: &mut Words) -> Option<Piece>
    ensures { TakesPiece words.old words.new result }
{
    let Some(word) = words.next_word() else {
        return None;
    };
    if word == b"zero".as_slice() {
        return Some(Piece::Zero);
    }
    if word == b"below".as_slice() {
        return match words.next_end() {
            Some(end) => Some(Piece::Below(end)),
            None => None,
        };
    }
    if word == b"above".as_slice() {
        return match words.next_end() {
            Some(end) => Some(Piece::Above(end)),
            None => None,
        };
    }
    None
}

/// Takes a number of any size, and tells whether there is one.
fn takes_number(words: &mut Words) -> bool
    ensures yes { OnTrue result ((word : Word) × IsNumber word × (words.old ≡ word ∷ words.new)) }
    ensures no { OnFalse result ((word : Word) (rest : List Word) → IsNumber word → words.old ≡ word ∷ rest → ⊥) }
{
    match words.next_number() {
        Some(_) => true,
        None => false,
    }
}

/// Takes a piece with an end of any size, and tells whether there is one.
fn takes_piece_loosely(words: &mut Words) -> bool
    ensures { TakesPieceLoosely words.old words.new result }
{
    let Some(word) = words.next_word() else {
        return false;
    };
    if word == b"zero".as_slice() {
        return true;
    }
    if word == b"below".as_slice() {
        return takes_number(words);
    }
    if word == b"above".as_slice() {
        return takes_number(words);
    }
    false
}

/// The head of an exclusion that the line tells.
fn told_exclude(line: &[u8]) -> Option<ExcludeHead>
    ensures { Tells (λ head. IsLine (exclude_part head.entry head.name head.piece head.under)) line.now result }
{
    let Some(mut words) = Words::behind(line, b"exclude") else {
        return None;
    };
    let Some(entry) = words.next_name() else {
        return None;
    };
    let Some(name) = words.next_name() else {
        return None;
    };
    let Some(piece) = next_piece(&mut words) else {
        return None;
    };
    if !words.takes(b"under") {
        return None;
    }
    let Some(under) = words.last_count() else {
        return None;
    };
    Some(ExcludeHead {
        entry,
        name,
        piece,
        under,
    })
}

/// Whether the line would tell the head of an exclusion, were its numbers of another size.
fn is_exclude_loosely(line: &[u8]) -> bool
    ensures { IsTrue result ↔ IsExcludeLoosely line.now }
{
    let Some(mut words) = Words::behind(line, b"exclude") else {
        return false;
    };
    let Some(_) = words.next_name() else {
        return false;
    };
    let Some(_) = words.next_name() else {
        return false;
    };
    if !takes_piece_loosely(&mut words) {
        return false;
    }
    if !words.takes(b"under") {
        return false;
    }
    words.is_last_number()
}

/// Reads the head of an exclusion.
pub fn read_exclude(line: &[u8]) -> Result<ExcludeHead, LineFault>
    ensures { ReadsLine (λ head. exclude_part head.entry head.name head.piece head.under) line.now result }
{
    match told_exclude(line) {
        Some(head) => Ok(head),
        None => Err(fault_of(is_exclude_loosely(line))),
    }
}
