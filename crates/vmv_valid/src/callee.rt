ghost use Rattle.std.specs.Prelude.{◌≡◌, ◌+◌, ◌*◌, ◌<◌, ◌≤◌, IsTrue, min};
ghost use Rattle.vmv_valid.specs.Callees.{fits, takes, declares, brought_by, called_outside, capped_sum, capped_product};
ghost use Rattle.vmv_tree.specs.Run.{turns_of};

use vmv_tree::Name;

/// What one call brings, each at most `CAP`.
#[derive(Clone, Copy, Debug, Drop)]
pub(crate) struct Brought {
    /// The depth of helpers.
    pub depth: u64,
    /// The call paths, its own included.
    pub paths: u64,
    /// The unrolled steps beside the call's own.
    pub steps: u64,
    /// The unrolled outside calls.
    pub asks: u64,
}

/// An item that may be called by those below it.
#[derive(Clone, Copy, Debug, Drop)]
pub(crate) struct Callee {
    pub name: Name,
    /// How many arguments it takes. `None` where no call can fit: for an arity below 0.
    pub arity: Option<u8>,
    pub brought: Brought,
}

/// A greater number is told as this one.
pub(crate) const CAP: u64 = 1_000_000_000;

/// A sum, at most `CAP`.
pub(crate) fn capped_sum(a: u64, b: u64) -> u64
    ensures { result ≡ capped_sum a b }
{
    a.saturating_add(b).min(CAP)
}

/// A product, at most `CAP`.
pub(crate) fn capped_product(a: u64, b: u64) -> u64
    ensures { result ≡ capped_product a b }
{
    a.saturating_mul(b).min(CAP)
}

fn fits(arity: Option<u8>, count: usize) -> bool
    ensures value { result ≡ fits arity count }
    ensures few { IsTrue result → count ≤ 255 }
{
    match arity {
        Some(arity) => usize::from(arity) == count,
        None => false,
    }
}

/// Whether one of these has this name and takes so many arguments.
pub(crate) fn takes(callees: &[Callee], name: &Name, count: usize) -> bool
    ensures takes { result ≡ takes callees.now name.now count }
    ensures few { IsTrue result → count ≤ 255 }
{
    for callee in callees {
        if fits(callee.arity, count) && callee.name.bytes() == name.bytes() {
            return true;
        }
    }
    false
}

/// Whether one of these has this name and takes some number of arguments.
pub(crate) fn declares(callees: &[Callee], name: &Name) -> bool
    ensures { result ≡ declares callees.now name.now }
{
    for callee in callees {
        if callee.arity.is_some() && callee.name.bytes() == name.bytes() {
            return true;
        }
    }
    false
}

/// What a call of the first that has this name brings, and nothing where none has it.
pub(crate) fn brought_by(callees: &[Callee], name: &Name) -> Brought
    ensures { result ≡ brought_by callees.now name.now }
{
    for callee in callees {
        if callee.name.bytes() == name.bytes() {
            return callee.brought;
        }
    }
    Brought {
        depth: 0,
        paths: 0,
        steps: 0,
        asks: 0,
    }
}

/// An outside function, as those below it see it.
pub(crate) fn called_outside(name: &Name, arity: i64) -> Callee
    requires { turns_of arity ≤ 255 }
    ensures { result ≡ called_outside name.now arity }
{
    let arity = if arity < 0 { None } else { Some(arity as u8) };
    Callee {
        name: *name,
        arity,
        brought: Brought {
            depth: 0,
            paths: 0,
            steps: 0,
            asks: 1,
        },
    }
}
