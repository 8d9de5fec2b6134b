ghost use Rattle.std.specs.Prelude.{◌≤◌, length, IfSome, IfNone};
ghost use Rattle.vmv_text.specs.Tokens.{tokens};
ghost use Rattle.vmv_text.specs.Mentioned.{name_count, HasMention, AtName};

use crate::cursor::Cursor;
use crate::operand::name_of;
use crate::read::{column, line};

impl Cursor<'_> {
    /// Goes on to the next name, if there is one.
    fn go_to_next(&mut self) -> bool
        ensures { AtName 0 result self.old self.new }
    {
        loop {
            let Some(token) = *self.peek() else {
                return false;
            };
            if name_of(&Some(token)).is_some() {
                return true;
            }
            self.skip();
        }
    }

    /// Goes on to the name of this number, from 0, if there are so many.
    fn go_to_name(&mut self, number: u32) -> bool
        ensures { AtName number result self.old self.new }
    {
        for _passed in 0..number {
            if !self.go_to_next() {
                return false;
            }
            self.skip();
        }
        self.go_to_next()
    }
}

/// The line and column of the name of this number, from 0, in the text, if it has so many. A text is at most 1,048,576
/// bytes long.
pub fn mention_place(text: &[u8], mention: u32) -> Option<(u32, u32)>
    requires { length text.now ≤ 1048576 }
    ensures place { IfSome result (λ p. HasMention text.now mention p.0 p.1) }
    ensures none { IfNone result (name_count (tokens text.now) ≤ mention) }
{
    let mut cursor = Cursor::new(text);
    if !cursor.go_to_name(mention) {
        return None;
    }
    let front = &text[..text.len() - cursor.left()];
    Some((line(front), column(front)))
}
