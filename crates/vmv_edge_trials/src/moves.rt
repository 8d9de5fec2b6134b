ghost use Rattle.std.specs.Prelude.{◌≡◌, length};

use vmv_cases::Sheet;
use vmv_links::Links;

/// How many numbers there are.
pub const NUMBERS: u32 = 4;

/// How many lists there are.
pub const LISTS: u32 = 2;

/// Puts a number at the end of a list. A number that is in one already is refused.
pub fn push(links: &mut Links, list: u32, item: u32, sheet: &mut Sheet)
    requires lists { length links.old.lists ≡ 2 }
    requires size { links.old.size ≡ 4 }
    ensures lists { length links.new.lists ≡ 2 }
    ensures size { links.new.size ≡ 4 }
{
    if list >= LISTS || item >= NUMBERS || links.is_in(item).is_some() {
        sheet.refuse();
        return;
    }
    links.push_back(list, item);
}

fn put_number(number: Option<u32>, sheet: &mut Sheet) {
    match number {
        Some(number) => {
            sheet.show(&number);
            sheet.line(b"");
        }
        None => sheet.line(b"none"),
    }
}

/// Takes the number from the front of a list.
pub fn pop(links: &mut Links, list: u32, sheet: &mut Sheet)
    requires lists { length links.old.lists ≡ 2 }
    requires size { links.old.size ≡ 4 }
    ensures lists { length links.new.lists ≡ 2 }
    ensures size { links.new.size ≡ 4 }
{
    if list >= LISTS {
        sheet.refuse();
        return;
    }
    put_number(links.pop_front(list), sheet);
}

/// Takes a number out of its list.
pub fn take(links: &mut Links, item: u32, sheet: &mut Sheet)
    requires lists { length links.old.lists ≡ 2 }
    requires size { links.old.size ≡ 4 }
    ensures lists { length links.new.lists ≡ 2 }
    ensures size { links.new.size ≡ 4 }
{
    if item >= NUMBERS {
        sheet.refuse();
        return;
    }
    if links.take_out(item) {
        sheet.line(b"taken out");
    } else {
        sheet.line(b"in no list");
    }
}

/// Writes the first number of a list.
pub fn put_first(links: &Links, list: u32, sheet: &mut Sheet)
    requires { length links.now.lists ≡ 2 }
{
    if list >= LISTS {
        sheet.refuse();
        return;
    }
    put_number(links.first(list), sheet);
}

/// Writes the number behind another.
pub fn put_next(links: &Links, item: u32, sheet: &mut Sheet)
    requires { links.now.size ≡ 4 }
{
    if item >= NUMBERS {
        sheet.refuse();
        return;
    }
    put_number(links.next(item), sheet);
}

/// Writes the list that a number is in.
pub fn put_list(links: &Links, item: u32, sheet: &mut Sheet)
    requires { links.now.size ≡ 4 }
{
    if item >= NUMBERS {
        sheet.refuse();
        return;
    }
    put_number(links.is_in(item), sheet);
}
