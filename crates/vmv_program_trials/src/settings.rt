use vmv_cases::{cut, number};

/// A key and a number.
#[derive(Debug, Drop)]
pub(crate) struct Setting<'a> {
    pub(crate) key: &'a [u8],
    pub(crate) count: u64,
    /// What stands behind them in the line.
    pub(crate) rest: &'a [u8],
}

/// The setting that a line begins with, or None where its second word isn't a number.
pub(crate) fn first_setting<'a>(line: &'a [u8]) -> Option<Setting<'a>> {
    let (key, behind) = cut(line);
    let (count, rest) = cut(behind);
    let count = u64::try_from(number(count)?).ok()?;
    Some(Setting { key, count, rest })
}
