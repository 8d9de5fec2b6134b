ghost use Rattle.std.specs.Prelude.{◌≡◌, ◌<◌, ◌++◌, ◌∷◌, [], length};

use std::marker::Model;

/// A range for each parameter of an entry, at most 16. A contract sees it as the list of the ranges, each with its least
/// and its greatest word.
#[derive(Clone, Copy, Debug)]
pub struct ParamBox {
    ranges: [(i64, i64); 16],
    len: u8,
}

impl Model for ParamBox {
    ghost use Rattle.std.specs.Prelude.{◌≡◌, ◌≤◌, List, length, take};
    ghost use Rattle.std.proofs.Common.{sym};
    ghost use Rattle.vmv_snapshot.specs.Boxes.{Range, padded, length-padded_take};

    ghost Value = { List Range };

    ghost view = { λ b. take b.len b.ranges };

    ghost invariant = { λ b. (b.len ≤ 16) × (b.ranges ≡ padded (take b.len b.ranges)) };

    ghost inverse = { λ v. record { ranges = padded v; len = length v } };

    ghost inverse_ok = { λ b h i. record { ranges = sym h.1 i; len = length-padded_take b.ranges b.len h.0 h.1 i } };
}

impl ParamBox {
    /// No range yet.
    pub fn new() -> ParamBox
        ensures { result ≡ [] }
    {
        ParamBox {
            ranges: [(0, 0); 16],
            len: 0,
        }
    }

    /// The ranges, in the order of the parameters.
    pub fn ranges(&self) -> &[(i64, i64)]
        ensures { result.now ≡ self.now }
    {
        &self.ranges[..self.len as usize]
    }

    /// Adds the range of the next parameter.
    pub fn push(&mut self, lo: i64, hi: i64)
        requires { length self.old < 16 }
        ensures { self.new ≡ self.old ++ (lo, hi) ∷ [] }
    {
        self.ranges[self.len as usize] = (lo, hi);
        self.len += 1;
    }
}
