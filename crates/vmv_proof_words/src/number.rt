ghost use Rattle.std.specs.Prelude.{◌≡◌, ◌↔◌, ◌∷◌, IsTrue};
ghost use Rattle.std.specs.Char.{is_ascii_digit};
ghost use Rattle.std.specs.List.{list_all};
ghost use Rattle.vmv_witness.specs.Numbers.{IsNatural, IsNumber};
ghost use Rattle.vmv_proof_words.specs.Taking.{IsNaturalWord, IsEndWord, IsBoundWord, Tells};

fn all_digits(bytes: &[u8]) -> bool
    ensures { result ≡ list_all is_ascii_digit bytes.now }
{
    bytes.iter().all(|b| b.is_ascii_digit())
}

/// Whether the bytes are a natural number's digits, of any size.
fn is_natural(digits: &[u8]) -> bool
    ensures { IsTrue result ↔ IsNatural digits.now }
{
    match digits {
        [] => false,
        [_] => all_digits(digits),
        [first, ..] => *first != b'0' && all_digits(digits),
    }
}

/// Whether the bytes are a number, of any size.
pub fn is_number(bytes: &[u8]) -> bool
    ensures { IsTrue result ↔ IsNumber bytes.now }
{
    match bytes {
        [b'-', digits @ ..] => digits != b"0".as_slice() && is_natural(digits),
        _ => is_natural(bytes),
    }
}

/// The number of 64 bits that these digits tell.
pub fn natural_of(digits: &[u8]) -> Option<u64>
    ensures { Tells (IsNaturalWord 64) digits.now result }
{
    if !is_natural(digits) {
        return None;
    }
    let Ok(text) = str::from_utf8(digits) else {
        return None;
    };
    match text.parse::<u64>() {
        Ok(number) => Some(number),
        Err(_) => None,
    }
}

/// The number of 32 bits that these digits tell.
pub fn count_of(digits: &[u8]) -> Option<u32>
    ensures { Tells (IsNaturalWord 32) digits.now result }
{
    let Some(number) = natural_of(digits) else {
        return None;
    };
    if number > u32::MAX as u64 {
        return None;
    }
    Some(number as u32)
}

/// The negative number of these digits behind a minus sign, from -2^64 on.
fn below_zero(digits: &[u8]) -> Option<i128>
    ensures { Tells (λ z word. IsBoundWord z (45 ∷ word)) digits.now result }
{
    if digits == b"18446744073709551616".as_slice() {
        return Some(-(1 << 64));
    }
    let Some(number) = natural_of(digits) else {
        return None;
    };
    if number == 0 {
        return None;
    }
    Some(-(number as i128))
}

/// The whole number from -2^64 to 2^64 - 1 that the bytes tell.
pub fn bound_of(bytes: &[u8]) -> Option<i128>
    ensures { Tells IsBoundWord bytes.now result }
{
    if let [b'-', digits @ ..] = bytes {
        return below_zero(digits);
    }
    match natural_of(bytes) {
        Some(number) => Some(number as i128),
        None => None,
    }
}

/// The word of the language that the bytes tell.
pub fn end_of(bytes: &[u8]) -> Option<i64>
    ensures { Tells IsEndWord bytes.now result }
{
    let Some(bound) = bound_of(bytes) else {
        return None;
    };
    if bound < i64::MIN as i128 {
        return None;
    }
    if bound > i64::MAX as i128 {
        return None;
    }
    Some(bound as i64)
}
