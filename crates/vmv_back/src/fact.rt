ghost use Rattle.std.specs.Prelude.{◌≡◌, ◌≤◌, ◌≤ℤ◌, length, IsTrue, if◌then◌else◌};
ghost use Rattle.vmv_back.specs.Facts.{mirrored, negated, told, fact_of, negation, slots_of, narrow, narrow_slot, narrowed};
ghost use Rattle.vmv_back.specs.Boxes.{is_nonempty, is_nonempty_range};
ghost use Rattle.vmv_back.specs.Kept.{IsPart};

use crate::fixed::Slots;
use vmv_snapshot::{CodeOperand, CodeTest, ParamBox, Slot};
use vmv_tree::Rel;

/// How the value of a slot stands to a literal.
#[derive(Clone, Copy)]
pub(crate) struct Fact {
    pub(crate) slot: Slot,
    pub(crate) rel: Rel,
    pub(crate) word: i64,
}

fn mirrored(rel: Rel) -> Rel
    ensures { result ≡ mirrored rel }
{
    match rel {
        Rel::Equal => Rel::Equal,
        Rel::Unequal => Rel::Unequal,
        Rel::Less => Rel::Greater,
        Rel::AtMost => Rel::AtLeast,
        Rel::Greater => Rel::Less,
        Rel::AtLeast => Rel::AtMost,
    }
}

fn negated(rel: Rel) -> Rel
    ensures { result ≡ negated rel }
{
    match rel {
        Rel::Equal => Rel::Unequal,
        Rel::Unequal => Rel::Equal,
        Rel::Less => Rel::AtLeast,
        Rel::AtMost => Rel::Greater,
        Rel::Greater => Rel::AtMost,
        Rel::AtLeast => Rel::Less,
    }
}

/// The fact of a slot of the set.
fn of_slot(fixed: &Slots, slot: Slot, rel: Rel, word: i64) -> Option<Fact>
    ensures { result ≡ (if slots_of fixed.now slot.0 then Some (record { slot = slot; rel = rel; word = word }) else None) }
{
    if fixed[slot.0 as usize] {
        Some(Fact { slot, rel, word })
    } else {
        None
    }
}

/// What a test tells of a slot of the set: where the one side is the slot and the other a literal.
pub(crate) fn fact_of(fixed: &Slots, test: CodeTest) -> Option<Fact>
    ensures { result ≡ fact_of (slots_of fixed.now) test }
{
    match test.left {
        CodeOperand::Var(slot) => match test.right {
            CodeOperand::Lit(word) => of_slot(fixed, slot, test.rel, word),
            CodeOperand::Var(_) => None,
        },
        CodeOperand::Lit(word) => match test.right {
            CodeOperand::Var(slot) => of_slot(fixed, slot, mirrored(test.rel), word),
            CodeOperand::Lit(_) => None,
        },
    }
}

impl Fact {
    pub(crate) fn negation(self) -> Fact
        ensures { result ≡ negation self }
    {
        Fact {
            slot: self.slot,
            rel: negated(self.rel),
            word: self.word,
        }
    }

    /// The least value of a range that stands so to the word.
    fn narrow_lo(self, range: (i64, i64)) -> i128
        ensures value { result ≡ (narrow self.rel self.word range).0 }
        ensures within { range.0 ≤ℤ result }
    {
        let word = i128::from(self.word);
        let least = i128::from(range.0);
        match self.rel {
            Rel::Equal | Rel::AtLeast => least.max(word),
            Rel::Unequal if self.word == range.0 => least + 1,
            Rel::Unequal | Rel::Less | Rel::AtMost => least,
            Rel::Greater => least.max(word + 1),
        }
    }

    /// The greatest value of a range that stands so to the word.
    fn narrow_hi(self, range: (i64, i64)) -> i128
        ensures value { result ≡ (narrow self.rel self.word range).1 }
        ensures within { result ≤ℤ range.1 }
    {
        let word = i128::from(self.word);
        let greatest = i128::from(range.1);
        match self.rel {
            Rel::Less => greatest.min(word - 1),
            Rel::Equal | Rel::AtMost => greatest.min(word),
            Rel::Unequal if self.word != range.0 && self.word == range.1 => greatest - 1,
            Rel::Unequal | Rel::Greater | Rel::AtLeast => greatest,
        }
    }

    /// The values of a range that stand so to the word, where there are any.
    pub(crate) fn narrow(self, range: (i64, i64)) -> Option<(i64, i64)>
        ensures { IsPart is_nonempty_range (narrow self.rel self.word range) result }
    {
        let least = self.narrow_lo(range);
        let greatest = self.narrow_hi(range);
        if least > greatest {
            return None;
        }
        Some((least as i64, greatest as i64))
    }

    /// The range of a slot where the fact holds, and `None` where it is empty.
    fn narrow_slot(self, slot: usize, range: (i64, i64)) -> Option<(i64, i64)>
        requires { IsTrue (is_nonempty_range range) }
        ensures { IsPart is_nonempty_range (narrow_slot self slot range) result }
    {
        if slot == usize::from(self.slot.0) {
            self.narrow(range)
        } else {
            Some(range)
        }
    }

    /// The part of a box where the fact holds, and `None` where it is empty.
    pub(crate) fn narrowed(self, within: &ParamBox) -> Option<ParamBox>
        requires few { length within.now ≤ 16 }
        requires nonempty { IsTrue (is_nonempty within.now) }
        ensures { IsPart is_nonempty (narrowed self within.now) result }
    {
        let mut part = ParamBox::new();
        for (i, range) in within.ranges().iter().enumerate() {
            let Some((lo, hi)) = self.narrow_slot(i + 1, *range) else {
                return None;
            };
            part.push(lo, hi);
        }
        Some(part)
    }
}
