ghost use Rattle.std.specs.Prelude.{◌≡◌, ◌↔◌, IsTrue};
ghost use Rattle.std.specs.Char.{is_ascii_digit};
ghost use Rattle.std.specs.List.{list_all};
ghost use Rattle.std.specs.Fmt.{decimal, signed_decimal};
ghost use Rattle.vmv_witness.specs.Numbers.{IsNatural, IsNumber, IsSiteNumber, IsValue};
ghost use Rattle.vmv_witness.specs.Reading.{ReadsNumber};

use crate::fault::Ill;

fn all_digits(bytes: &[u8]) -> bool
    ensures { result ≡ list_all is_ascii_digit bytes.now }
{
    bytes.iter().all(|b| b.is_ascii_digit())
}

/// Whether the bytes are a natural number's digits, of any size.
fn is_natural(digits: &[u8]) -> bool
    ensures { IsTrue result ↔ IsNatural digits.now }
{
    match digits {
        [] => false,
        [_] => all_digits(digits),
        [first, ..] => *first != b'0' && all_digits(digits),
    }
}

/// Whether the bytes are a number, of any size.
fn is_number(bytes: &[u8]) -> bool
    ensures { IsTrue result ↔ IsNumber bytes.now }
{
    match bytes {
        [b'-', digits @ ..] => digits != b"0".as_slice() && is_natural(digits),
        _ => is_natural(bytes),
    }
}

/// The word of these digits, behind a minus sign where it is negative.
pub(crate) fn value_of(bytes: &[u8]) -> Result<i64, Ill>
    ensures { ReadsNumber signed_decimal IsValue bytes.now result }
{
    if !is_number(bytes) {
        return Err(Ill::Form);
    }
    let Ok(text) = str::from_utf8(bytes) else {
        return Err(Ill::Form);
    };
    match text.parse::<i64>() {
        Ok(value) => Ok(value),
        Err(_) => Err(Ill::Size),
    }
}

/// The number of a site of these digits.
pub(crate) fn site_number_of(bytes: &[u8]) -> Result<u32, Ill>
    ensures { ReadsNumber decimal IsSiteNumber bytes.now result }
{
    if !is_number(bytes) {
        return Err(Ill::Form);
    }
    let Ok(text) = str::from_utf8(bytes) else {
        return Err(Ill::Form);
    };
    match text.parse::<u32>() {
        Ok(number) => Ok(number),
        Err(_) => Err(Ill::Size),
    }
}
