ghost use Rattle.std.specs.Prelude.{◌≡◌, ◌+◌, ◌-◌, ◌≤◌, ◌++◌, length, min, max, take, drop};

/// Bytes that are given piece by piece.
#[derive(Debug, Drop)]
pub(crate) struct Stock {
    bytes: Vec<u8>,
    given: usize,
    ghost within: { given ≤ length bytes.items },
}

// Copies all of these bytes to the front of a slice.
fn copy_front(into: &mut [u8], bytes: &[u8])
    requires { length bytes.now ≤ length into.old }
    ensures { take (length bytes.now) into.new ≡ bytes.now }
{
    into[..bytes.len()].copy_from_slice(bytes);
}

// Copies so many of the bytes from this place on.
fn copy_from(into: &mut [u8], bytes: &[u8], from: usize, n: usize)
    requires within { from + n ≤ length bytes.now }
    requires room { n ≤ length into.old }
    ensures { drop from bytes.now ≡ take n into.new ++ drop (from + n) bytes.now }
{
    copy_front(into, &bytes[from..from + n]);
}

impl Stock {
    pub(crate) fn new(bytes: Vec<u8>) -> Stock
        ensures { drop result.given result.bytes.items ≡ bytes.items }
    {
        Stock { bytes, given: 0 }
    }

    // How many are still to be given.
    pub(crate) fn len(&self) -> usize
        ensures { result ≡ length (drop self.now.given self.now.bytes.items) }
    {
        self.bytes.len() - self.given
    }

    // Gives as many as there is room for, and at most `most` but at least one.
    pub(crate) fn give(&mut self, into: &mut [u8], most: usize) -> usize
        ensures count { result ≡ min (min (length into.new) (max most 1)) (length (drop self.old.given self.old.bytes.items)) }
        ensures given { drop self.old.given self.old.bytes.items ≡ take result into.new ++ drop self.new.given self.new.bytes.items }
    {
        let n = into.len().min(most.max(1)).min(self.len());
        copy_from(into, self.bytes.as_slice(), self.given, n);
        self.given += n;
        n
    }
}
