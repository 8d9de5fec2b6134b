ghost use Rattle.std.specs.Prelude.{◌≡◌, ℕ, ◌<◌, ◌≤◌, ◌-◌, List, length, take, Result, Err, IfOk, IfErr};
ghost use Rattle.std.specs.Str.{IsUtf8, IsValidUpTo};
ghost use Rattle.vmv_tree.specs.Tree.{Item};
ghost use Rattle.vmv_text.specs.Grammar.{IsText};
ghost use Rattle.vmv_text.specs.Tokens.{placed_tokens};
ghost use Rattle.vmv_text.specs.Faults.{line_after, column_after, IsPlace, IsReadFault};
ghost use Rattle.vmv_text.specs.Parts.{IsParsed};

use crate::cursor::Cursor;
use crate::fault::{Fault, ReadFault};
use crate::item_part::Parsed;
use std::alloc::Global;
use std::str;

/// The most bytes of a text.
pub const MOST_BYTES: usize = 1_048_576;

/// The column behind these bytes: one more than the bytes since the last line feed.
pub fn column(front: &[u8]) -> u32
    requires { length front.now ≤ 1048576 }
    ensures { result ≡ column_after front.now }
{
    let mut column = 1;
    for byte in front {
        if *byte == b'\n' {
            column = 1;
        } else {
            column += 1;
        }
    }
    column
}

/// The line behind these bytes: one more than the line feeds.
pub fn line(front: &[u8]) -> u32
    requires { length front.now ≤ 1048576 }
    ensures { result ≡ line_after front.now }
{
    1 + front.iter().filter(|byte| **byte == b'\n').count() as u32
}

/// The syntax fault of a text of which the cursor left these many bytes.
fn fault_at(text: &[u8], left: usize) -> ReadFault
    requires short { length text.now ≤ 1048576 }
    requires within { left ≤ length text.now }
    ensures { IsPlace (take (length text.now - left) text.now) result }
{
    let front = &text[..text.len() - left];
    ReadFault::Syntax {
        line: line(front),
        column: column(front),
    }
}

/// The program of a short text of UTF-8.
fn read_items(alloc: Global, text: &[u8]) -> Result<Parsed, ReadFault>
    requires short { length text.now ≤ 1048576 }
    requires utf8 { IsUtf8 text.now }
    ensures text { IfOk result (λ r. (program : List Item) × IsParsed r program × IsText text.now program) }
    ensures fault { IfErr result (λ e. IsReadFault text.now e) }
{
    let mut cursor = Cursor::new(text);
    match cursor.items(alloc) {
        Ok(parsed) => Ok(parsed),
        Err(Fault::Memory) => Err(ReadFault::Memory),
        Err(Fault::Syntax) => Err(fault_at(text, cursor.left())),
    }
}

/// Reads the text of a program, with a tree unless some blocks stand more than 8 deep in one another.
///
/// `TooLong` says that the text has more than 1,048,576 bytes, `NotUtf8` that it isn't UTF-8, `Syntax` that no program
/// has it, and `Memory` that memory ran out; they are tried in this order.
pub fn read_program(alloc: Global, text: &[u8]) -> Result<Parsed, ReadFault>
    ensures text { IfOk result (λ r. (program : List Item) × IsParsed r program × IsText text.now program) }
    ensures short { IfOk result (λ r. length text.now ≤ 1048576) }
    ensures fault { IfErr result (λ e. IsReadFault text.now e) }
    ensures not_utf8 { length text.now ≤ 1048576 → (at : ℕ) → IsValidUpTo text.now at → result ≡ Err (ReadFault.NotUtf8 at) }
    ensures too_long { 1048576 < length text.now → result ≡ Err (ReadFault.TooLong (length text.now)) }
{
    if text.len() > MOST_BYTES {
        return Err(ReadFault::TooLong { found: text.len() });
    }
    match str::from_utf8(text) {
        Ok(_) => read_items(alloc, text),
        Err(e) => Err(ReadFault::NotUtf8 {
            at: e.valid_up_to(),
        }),
    }
}
