ghost use Rattle.std.specs.Prelude.{◌≡◌, ◌↔◌, ◌++◌, ◌≤◌, ◌-◌, length, replicate, nat_eq, IsTrue, IsSome, IfSome};
ghost use Rattle.std.specs.List.{list_all};
ghost use Rattle.std.specs.Cmp.Lexicographic.{pointwise, nat_list_eq_equiv};
ghost use Rattle.std.specs.Cmp.{partial_equiv_from_equiv};
ghost use Rattle.vmv_keeper.specs.Label.{is_label, is_label_byte};

use std::marker::Model;

/// A name of a caller, a project, a member or an act: 1 to 64 ASCII letters, digits, `_` and `-`.
///
/// A contract sees it as its bytes.
#[derive(Clone, Copy, Debug, Drop)]
pub struct Label {
    bytes: [u8; 64],
    len: u8,
}

impl Model for Label {
    ghost use Rattle.std.specs.Prelude.{◌≡◌, ℕ, ◌-◌, ◌≤◌, List, ◌++◌, length, take, replicate, IsTrue};
    ghost use Rattle.std.proofs.Common.{sym};
    ghost use Rattle.vmv_keeper.specs.Padded.{padded, length-padded_take};
    ghost use Rattle.vmv_keeper.specs.Label.{is_label};

    ghost Value = { List ℕ };

    ghost view = { λ n. take n.len n.bytes };

    ghost invariant = { λ n. (n.len ≤ 64) × (n.bytes ≡ padded (take n.len n.bytes)) × IsTrue (is_label (take n.len n.bytes)) };

    ghost inverse = { λ v. record { bytes = padded v; len = length v } };

    ghost inverse_ok = { λ n h i. record { bytes = sym h.1 i; len = length-padded_take n.bytes n.len h.0 h.1 i } };
}

fn is_label_byte(b: u8) -> bool
    ensures { result ≡ is_label_byte b }
{
    b.is_ascii_uppercase() || b.is_ascii_lowercase() || b.is_ascii_digit() || b == b'_' || b == b'-'
}

fn all_label_bytes(bytes: &[u8]) -> bool
    ensures { result ≡ list_all is_label_byte bytes.now }
{
    bytes.iter().all(|b| is_label_byte(*b))
}

fn is_label(bytes: &[u8]) -> bool
    ensures { result ≡ is_label bytes.now }
{
    1 <= bytes.len() && bytes.len() <= 64 && all_label_bytes(bytes)
}

fn padded(bytes: &[u8]) -> [u8; 64]
    requires { length bytes.now ≤ 64 }
    ensures { result ≡ bytes.now ++ replicate (64 - length bytes.now) 0 }
{
    let mut all = [0; 64];
    for i in 0..bytes.len() {
        all[i] = bytes[i];
    }
    all
}

impl Label {
    /// The label of these bytes, if they are a label's.
    pub fn read(bytes: &[u8]) -> Option<Label>
        ensures some { IsSome result ↔ IsTrue (is_label bytes.now) }
        ensures value { IfSome result (λ label. label ≡ bytes.now) }
    {
        if !is_label(bytes) {
            return None;
        }
        Some(Label {
            bytes: padded(bytes),
            len: bytes.len() as u8,
        })
    }

    pub fn bytes(&self) -> &[u8]
        ensures value { result.now ≡ self.now }
        ensures label { IsTrue (is_label self.now) }
    {
        &self.bytes[..self.len as usize]
    }

    /// Whether two labels are the same.
    pub fn is_same(&self, other: &Label) -> bool
        ensures { IsTrue result ↔ (self.now ≡ other.now) }
    {
        *self == *other
    }
}

impl PartialEq for Label {
    ghost eq = { pointwise nat_eq };

    ghost laws = { partial_equiv_from_equiv nat_list_eq_equiv };

    fn eq(&self, other: &Self) -> bool {
        self.bytes() == other.bytes()
    }
}

impl Eq for Label {
    ghost laws = { nat_list_eq_equiv };
}
