use std::alloc::Global;
use vmv_cases::Sheet;
use vmv_edge::Text;

/// Writes the bytes of a text, made and given back as a `Vec`.
fn put_text(text: Text, sheet: &mut Sheet) {
    let again = Text::from_vec(text.into_vec());
    sheet.line(again.bytes());
}

/// `? text`: whether a copy of a text is the same, and its bytes.
pub fn text(alloc: Global, bytes: &[u8], sheet: &mut Sheet) {
    let Ok(text) = Text::from_slice(alloc, bytes) else {
        sheet.fall_short();
        return;
    };
    let Ok(copy) = text.copy(alloc) else {
        sheet.fall_short();
        return;
    };
    if copy == text {
        sheet.put(b"the same ");
    }
    put_text(copy, sheet);
}
