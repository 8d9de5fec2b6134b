use vmv_cases::{Sheet, cut, number};
use vmv_cond::Cond;

/// The ends of a range `LO..HI`.
fn ends(word: &[u8]) -> Option<(i64, i64)> {
    let mut parts = word.split(|byte| *byte == b'.');
    let lo = number(parts.next()?)?;
    let _between_dots = parts.next()?;
    let hi = number(parts.next()?)?;
    Some((lo, hi))
}

/// The condition that words write.
pub fn read_cond(words: &[u8]) -> Option<Cond> {
    let (range, rest) = cut(words);
    let (lo, hi) = ends(range)?;
    if rest.is_empty() {
        Some(Cond::of(lo, hi, false))
    } else if rest == b"not 0".as_slice() {
        Some(Cond::of(lo, hi, true))
    } else {
        None
    }
}

/// Writes a condition. That 0 is left out is told where 0 lies between the ends.
pub fn put_cond(cond: Cond, sheet: &mut Sheet) {
    let (lo, hi) = (cond.lo(), cond.hi());
    sheet.show(&lo);
    sheet.put(b"..");
    sheet.show(&hi);
    if cond.zero_out() && lo < 0 && hi > 0 {
        sheet.put(b" not 0");
    }
}
