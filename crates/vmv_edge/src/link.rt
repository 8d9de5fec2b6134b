ghost use Rattle.std.specs.Prelude.{◌≡◌, ◌≤◌, ◌<◌, ℕ, length, take, List, Option, Ok, IfOk, OnOk, OnErr};
ghost use Rattle.vmv_edge.specs.Outside.{Rose, Appended, AppendedFront, TookNothing, TookSome, WasRead, IsAtEnd};

use crate::sink::Failed;

/// A connection, from which bytes are read and to which bytes are written.
pub trait Link {
    // the bytes that are still to be read, where the link tells them
    ghost input: { Self → Option (List ℕ) };

    // the bytes written so far, where the link tells them
    ghost written: { Self → Option (List ℕ) };

    // how many calls have failed, or took nothing of a piece that isn't empty
    ghost fault_count: { Self → ℕ };

    /// Reads the next bytes into the front of `into`, and says how many. For room that isn't empty, 0 is the
    /// end of the input. It takes no memory.
    ///
    /// It is `Failed` where the device failed, which may have lost bytes of the input then.
    fn read(&mut self, into: &mut [u8]) -> Result<usize, Failed>
        ensures within { IfOk result (λ n. n ≤ length into.new) }
        ensures read { IfOk result (λ n. WasRead (input self.old) (take n into.new) (input self.new)) }
        ensures end { result ≡ Ok 0 → 0 < length into.new → IsAtEnd (input self.old) }
        ensures failed { OnErr result (Rose (fault_count self.old) (fault_count self.new)) }
        ensures stands { OnOk result (fault_count self.new ≡ fault_count self.old) }
        ensures later { fault_count self.old ≤ fault_count self.new }
        ensures kept { written self.new ≡ written self.old };

    /// Takes some first bytes of the piece, and says how many. It takes no memory.
    ///
    /// It is `Failed` where the device failed, which has then taken some first bytes too. An answer of 0
    /// for a piece that isn't empty is a fault and counted as one.
    fn write(&mut self, piece: &[u8]) -> Result<usize, Failed>
        ensures within { IfOk result (λ n. n ≤ length piece.now) }
        ensures appended { IfOk result (λ n. Appended (written self.old) (take n piece.now) (written self.new)) }
        ensures prefix { OnErr result (AppendedFront (written self.old) piece.now (written self.new)) }
        ensures failed { OnErr result (Rose (fault_count self.old) (fault_count self.new)) }
        ensures nothing { TookNothing result (length piece.now) → Rose (fault_count self.old) (fault_count self.new) }
        ensures stands { TookSome result (length piece.now) → fault_count self.new ≡ fault_count self.old }
        ensures later { fault_count self.old ≤ fault_count self.new }
        ensures kept { input self.new ≡ input self.old };

    /// How many calls have failed. It never falls, and stands at its last value.
    fn faults(&self) -> u64
        ensures { result ≡ fault_count self.now };
}

/// Writes the whole piece, in as many writes as the link takes for it.
///
/// It is `Failed` as soon as a write fails or takes nothing. Then some first bytes of the piece were taken.
pub fn send_all<L: Link>(link: &mut L, piece: &[u8]) -> Result<(), Failed>
    ensures written { OnOk result (Appended (L.written link.old) piece.now (L.written link.new)) }
    ensures stands { OnOk result (L.fault_count link.new ≡ L.fault_count link.old) }
    ensures prefix { OnErr result (AppendedFront (L.written link.old) piece.now (L.written link.new)) }
    ensures failed { OnErr result (Rose (L.fault_count link.old) (L.fault_count link.new)) }
    ensures later { L.fault_count link.old ≤ L.fault_count link.new }
    ensures kept { L.input link.new ≡ L.input link.old }
{
    let mut from = 0;
    while from < piece.len() {
        let n = link.write(&piece[from..])?;
        if n == 0 {
            return Err(Failed);
        }
        from += n;
    }
    Ok(())
}
