ghost use Rattle.std.specs.Prelude.{ℕ, MatchOption};
ghost use Rattle.vmv_words.specs.Services.{IsConnections};
ghost use Rattle.vmv_words.specs.Words.{IsCount, IsNumber};

/// The number of workers that a word has in decimal digits, from 1 to 64.
pub(crate) fn count(word: &str) -> Option<u32>
    ensures { MatchOption result ((n : ℕ) → IsCount word.now n → ⊥) (IsCount word.now) }
{
    if word.as_bytes().starts_with(b"+") {
        return None;
    }
    let Ok(number) = word.parse::<u32>() else {
        return None;
    };
    if number == 0 || number > 64 {
        return None;
    }
    Some(number)
}

/// The number that a word has in decimal digits, where it fits 64 bits.
pub(crate) fn number(word: &str) -> Option<u64>
    ensures { MatchOption result ((n : ℕ) → IsNumber word.now n → ⊥) (IsNumber word.now) }
{
    if word.as_bytes().starts_with(b"+") {
        return None;
    }
    word.parse::<u64>().ok()
}

/// The number of connections that a word has in decimal digits, where it fits 32 bits.
pub(crate) fn connections(word: &str) -> Option<u32>
    ensures { MatchOption result ((n : ℕ) → IsConnections word.now n → ⊥) (IsConnections word.now) }
{
    if word.as_bytes().starts_with(b"+") {
        return None;
    }
    word.parse::<u32>().ok()
}
