ghost use Rattle.vmv_text.specs.Reading.{ReadsWith};
ghost use Rattle.vmv_surface_text.specs.Grammar.{IsExprAt};
ghost use Rattle.vmv_surface_text.specs.Reading.{FitsAt, HasSteps};

use crate::reader::{Place, Reader};
use std::alloc::Global;
use vmv_lower::Steps;
use vmv_text::{Cursor, Fault};

/// An expression, as its steps. Parentheses may stand in one another as deep as memory lasts.
pub fn expression(cursor: &mut Cursor<'_>, alloc: Global) -> Result<Steps, Fault>
    ensures { ReadsWith HasSteps (IsExprAt 0) (FitsAt 0) result cursor.old cursor.new }
{
    let mut reader = Reader::new(alloc);
    let mut place = Place::Operand;
    'reading: loop {
        match place {
            Place::Operand => place = reader.operand(cursor)?,
            Place::Operator => match reader.operator(cursor)? {
                Some(next) => place = next,
                None => return Ok(reader.steps),
            },
        }
    }
}
