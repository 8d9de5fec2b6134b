ghost use Rattle.std.specs.Prelude.{◌≡◌, ℕ, List, IfOk, IsTrue, IsUtf8};
ghost use Rattle.vmv_keeper.specs.Judging.{parses, IsReadable, HasVerdict};

use std::alloc::{AllocError, Global};
use vmv_edge::Text;

/// What a judge says of a text alone.
#[derive(Clone, Copy, PartialEq, Eq, Debug, Drop)]
pub enum Inspected {
    /// It may be a version.
    Fine,
    /// It doesn't parse: the number of the cause, and the line and column, which are 0 where there is no place.
    Refused { number: u8, line: u32, column: u32 },
    /// It parses, and nothing can be held against it.
    Vacuous,
}

/// What a judge says of a text against another.
#[derive(PartialEq, Eq, Debug, Drop)]
pub enum Compared {
    /// The verdict, of which 1 is that the second text keeps what the first does, and the report on it as JSON.
    Judged { verdict: u8, json: Text },
    /// The first of the two texts doesn't parse (1), or else the second (2).
    Unreadable { which: u8 },
}

/// A judge of texts. It says the same of the same texts each time.
pub trait Judge {
    ghost use Rattle.vmv_keeper.specs.declared.judge.Inspected.{Inspected};
    ghost use Rattle.vmv_keeper.specs.declared.judge.Compared.{Compared};

    // this is what is said of the text
    ghost inspected: { Self → List ℕ → Inspected → Type 0 };

    // this is what is said of the second text against the first
    ghost compared: { Self → List ℕ → List ℕ → Compared → Type 0 };

    // the second text keeps what the first does
    ghost keeps: { Self → List ℕ → List ℕ → Type 0 };

    /// Looks at a text alone. It fails where there is no memory.
    fn inspect(&self, alloc: Global, text: &Text) -> Result<Inspected, AllocError>
        ensures { IfOk result (inspected self.now text.now) };

    /// Holds a text against another. It fails where there is no memory.
    fn compare(&self, alloc: Global, base: &Text, revision: &Text) -> Result<Compared, AllocError>
        ensures { IfOk result (compared self.now base.now revision.now) };

    // one thing is said of a text
    ghost one_inspected: { (judge : Self) (text : List ℕ) (one other : Inspected) → inspected judge text one → inspected judge text other → one ≡ other };

    // one thing is said of a second text against a first
    ghost one_compared: { (judge : Self) (base revision : List ℕ) (one other : Compared) → compared judge base revision one → compared judge base revision other → one ≡ other };

    // a text that parses is UTF-8
    ghost utf8: { (judge : Self) (text : List ℕ) (said : Inspected) → inspected judge text said → IsTrue (parses said) → IsUtf8 text };

    // a comparison is unreadable exactly where a text doesn't parse
    ghost readable: { (judge : Self) (base revision : List ℕ) (first second : Inspected) (said : Compared) → inspected judge base first → inspected judge revision second → compared judge base revision said → IsReadable said (parses first) (parses second) };

    // a text that parses keeps what itself does
    ghost reflexive: { (judge : Self) (text : List ℕ) (said : Inspected) → inspected judge text said → IsTrue (parses said) → keeps judge text text };

    // what keeps what is kept keeps it too
    ghost transitive: { (judge : Self) (first second third : List ℕ) → keeps judge first second → keeps judge second third → keeps judge first third };

    // verdict 1 is given where the second text keeps what the first does
    ghost sound: { (judge : Self) (base revision : List ℕ) (said : Compared) → compared judge base revision said → HasVerdict 1 said → keeps judge base revision };
}
