ghost use Rattle.std.specs.Prelude.{◌≡◌, ◌↔◌, ◌++◌, ℕ, ◌<◌, ◌≤◌, ◌-◌, length, replicate, IsTrue, IsSome, IfSome};
ghost use Rattle.vmv_tree.specs.Names.{is_letter, is_digit, is_name_byte, is_name, first_is_letter, is_item_word, is_body_word, is_choice_word, is_loop_word, is_keyword};
ghost use Rattle.std.specs.List.{list_all};

use std::marker::Model;

/// A name: a letter or `_`, then letters, digits and `_`, all of ASCII, 1 to 64 bytes, and no keyword. A contract sees
/// it as its bytes.
#[derive(Clone, Copy, PartialEq, Eq, Hash, Debug, Drop)]
pub struct Name {
    bytes: [u8; 64],
    len: u8,
}

impl Model for Name {
    ghost use Rattle.std.specs.Prelude.{◌≡◌, ℕ, ◌-◌, ◌≤◌, List, ◌++◌, length, take, replicate, IsTrue};
    ghost use Rattle.std.proofs.Common.{sym};
    ghost use Rattle.vmv_tree.specs.Bytes.{padded, length-padded_take};
    ghost use Rattle.vmv_tree.specs.Names.{is_name};

    ghost Value = { List ℕ };

    ghost view = { λ n. take n.len n.bytes };

    ghost invariant = { λ n. (n.len ≤ 64) × (n.bytes ≡ padded (take n.len n.bytes)) × IsTrue (is_name (take n.len n.bytes)) };

    ghost inverse = { λ v. record { bytes = padded v; len = length v } };

    ghost inverse_ok = { λ n h i. record { bytes = sym h.1 i; len = length-padded_take n.bytes n.len h.0 h.1 i } };
}

fn is_letter(b: u8) -> bool
    ensures { result ≡ is_letter b }
{
    b.is_ascii_uppercase() || b.is_ascii_lowercase() || b == b'_'
}

fn is_name_byte(b: u8) -> bool
    ensures { result ≡ is_name_byte b }
{
    is_letter(b) || b.is_ascii_digit()
}

fn is_item_word(bytes: &[u8]) -> bool
    ensures { result ≡ is_item_word bytes.now }
{
    if bytes == b"outside".as_slice() {
        return true;
    }
    if bytes == b"helper".as_slice() {
        return true;
    }
    if bytes == b"entry".as_slice() {
        return true;
    }
    false
}

fn is_body_word(bytes: &[u8]) -> bool
    ensures { result ≡ is_body_word bytes.now }
{
    if bytes == b"var".as_slice() {
        return true;
    }
    if bytes == b"return".as_slice() {
        return true;
    }
    false
}

fn is_choice_word(bytes: &[u8]) -> bool
    ensures { result ≡ is_choice_word bytes.now }
{
    if bytes == b"assert".as_slice() {
        return true;
    }
    if bytes == b"if".as_slice() {
        return true;
    }
    if bytes == b"else".as_slice() {
        return true;
    }
    false
}

fn is_loop_word(bytes: &[u8]) -> bool
    ensures { result ≡ is_loop_word bytes.now }
{
    if bytes == b"repeat".as_slice() {
        return true;
    }
    if bytes == b"to".as_slice() {
        return true;
    }
    if bytes == b"cap".as_slice() {
        return true;
    }
    false
}

fn is_keyword(bytes: &[u8]) -> bool
    ensures { result ≡ is_keyword bytes.now }
{
    is_item_word(bytes) || is_body_word(bytes) || is_choice_word(bytes) || is_loop_word(bytes)
}

fn first_is_letter(bytes: &[u8]) -> bool
    ensures { result ≡ first_is_letter bytes.now }
{
    match bytes {
        [] => false,
        [first, ..] => is_letter(*first),
    }
}

fn all_name_bytes(bytes: &[u8]) -> bool
    ensures { result ≡ list_all is_name_byte bytes.now }
{
    bytes.iter().all(|b| is_name_byte(*b))
}

fn is_name(bytes: &[u8]) -> bool
    ensures { result ≡ is_name bytes.now }
{
    if bytes.len() > 64 || !first_is_letter(bytes) || !all_name_bytes(bytes) {
        return false;
    }
    !is_keyword(bytes)
}

fn padded(bytes: &[u8]) -> [u8; 64]
    requires { length bytes.now ≤ 64 }
    ensures { result ≡ bytes.now ++ replicate (64 - length bytes.now) 0 }
{
    let mut all = [0; 64];
    for i in 0..bytes.len() {
        all[i] = bytes[i];
    }
    all
}

impl Name {
    /// The name of these bytes, and `None` exactly where they aren't a name's. It takes no memory.
    pub fn read(bytes: &[u8]) -> Option<Name>
        ensures some { IsSome result ↔ IsTrue (is_name bytes.now) }
        ensures value { IfSome result (λ name. name ≡ bytes.now) }
    {
        if !is_name(bytes) {
            return None;
        }
        Some(Name {
            bytes: padded(bytes),
            len: bytes.len() as u8,
        })
    }

    /// Its bytes, which are a name's.
    pub fn bytes(&self) -> &[u8]
        ensures value { result.now ≡ self.now }
        ensures named { IsTrue (is_name self.now) }
    {
        &self.bytes[..self.len as usize]
    }
}
