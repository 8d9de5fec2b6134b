ghost use Rattle.std.specs.Prelude.{IfSome, IfNone, IsTrue};
ghost use Rattle.vmv_witness.specs.Reading.{lacks, SplitsAt};

/// The bytes before the first that is this one, and those behind it.
pub(crate) fn split_at_first(bytes: &[u8], byte: u8) -> Option<(&[u8], &[u8])>
    ensures some { IfSome result (λ parts. SplitsAt byte bytes.now parts.0.now parts.1.now) }
    ensures none { IfNone result (IsTrue (lacks byte bytes.now)) }
{
    for (i, b) in bytes.iter().enumerate() {
        if *b == byte {
            return Some((&bytes[..i], &bytes[i + 1..]));
        }
    }
    None
}
