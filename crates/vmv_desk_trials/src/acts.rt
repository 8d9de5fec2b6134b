use crate::small::put_same;
use std::alloc::Global;
use vmv_cases::{Case, Sheet, word};
use vmv_desk_texts::act;
use vmv_keeper::Change;

/// Whether two changes are the same.
pub fn is_same_change(one: &Change, other: &Change) -> bool {
    one.caller == other.caller
        && one.id == other.id
        && one.act == other.act
        && one.reply == other.reply
        && one.against == other.against
}

/// `? same NAME NAME`: whether the acts that two texts write are the same.
pub fn same(alloc: Global, case: &Case, ask: &[u8], sheet: &mut Sheet) {
    let first = act(alloc, case, case.text(word(ask, 1)), sheet);
    let second = act(alloc, case, case.text(word(ask, 2)), sheet);
    let (Some(first), Some(second)) = (first, second) else {
        sheet.refuse();
        return;
    };
    put_same(first.is_same(&second), sheet);
}
