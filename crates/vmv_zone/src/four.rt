ghost use Rattle.std.specs.Prelude.{◌≡◌};
ghost use Rattle.vmv_zone.specs.Four.{least_of, greatest_of};

/// The least of four numbers.
pub(crate) fn least(a: i128, b: i128, c: i128, d: i128) -> i128
    ensures { result ≡ least_of a b c d }
{
    a.min(b).min(c.min(d))
}

/// The greatest of four numbers.
pub(crate) fn greatest(a: i128, b: i128, c: i128, d: i128) -> i128
    ensures { result ≡ greatest_of a b c d }
{
    a.max(b).max(c.max(d))
}
