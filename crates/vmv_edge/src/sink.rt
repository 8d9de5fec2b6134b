ghost use Rattle.std.specs.Prelude.{◌≡◌, ◌≤◌, ◌<◌, ℕ, length, take, List, Option, IfOk, OnOk, OnErr};
ghost use Rattle.vmv_edge.specs.Outside.{Rose, Appended, AppendedFront, TookNothing, TookSome};

/// A call of a thing outside that has failed, which that thing has counted.
#[derive(Clone, Copy, PartialEq, Eq, Debug, Drop)]
pub struct Failed;

/// What takes bytes, as standard output.
pub trait Sink {
    // the bytes taken so far, where the sink tells them
    ghost taken: { Self → Option (List ℕ) };

    // how many writes have failed, or took nothing of a piece that isn't empty
    ghost fault_count: { Self → ℕ };

    /// Takes some first bytes of the piece, and says how many. It takes no memory.
    ///
    /// It is `Failed` where the device failed, which has then taken some first bytes too. An answer of 0
    /// for a piece that isn't empty is a fault and counted as one.
    fn write(&mut self, piece: &[u8]) -> Result<usize, Failed>
        ensures within { IfOk result (λ n. n ≤ length piece.now) }
        ensures appended { IfOk result (λ n. Appended (taken self.old) (take n piece.now) (taken self.new)) }
        ensures prefix { OnErr result (AppendedFront (taken self.old) piece.now (taken self.new)) }
        ensures failed { OnErr result (Rose (fault_count self.old) (fault_count self.new)) }
        ensures nothing { TookNothing result (length piece.now) → Rose (fault_count self.old) (fault_count self.new) }
        ensures stands { TookSome result (length piece.now) → fault_count self.new ≡ fault_count self.old }
        ensures later { fault_count self.old ≤ fault_count self.new };

    /// How many writes have failed. It never falls, and stands at its last value.
    fn faults(&self) -> u64
        ensures { result ≡ fault_count self.now };
}

/// Writes the whole piece, in as many writes as the sink takes for it.
///
/// It is `Failed` as soon as a write fails or takes nothing. Then some first bytes of the piece were taken.
pub fn write_all<O: Sink>(out: &mut O, piece: &[u8]) -> Result<(), Failed>
    ensures written { OnOk result (Appended (O.taken out.old) piece.now (O.taken out.new)) }
    ensures stands { OnOk result (O.fault_count out.new ≡ O.fault_count out.old) }
    ensures prefix { OnErr result (AppendedFront (O.taken out.old) piece.now (O.taken out.new)) }
    ensures failed { OnErr result (Rose (O.fault_count out.old) (O.fault_count out.new)) }
    ensures later { O.fault_count out.old ≤ O.fault_count out.new }
{
    let mut from = 0;
    while from < piece.len() {
        let n = out.write(&piece[from..])?;
        if n == 0 {
            return Err(Failed);
        }
        from += n;
    }
    Ok(())
}
