ghost use Rattle.std.specs.Prelude.{◌≡◌, ◌&&◌, ℕ, List, IfOk, OnOk, OnErr, nat_eq, if◌then◌else◌};
ghost use Rattle.std.specs.Cmp.Lexicographic.{pointwise};
ghost use Rattle.vmv_keeper.specs.Judging.{parses};
ghost use Rattle.vmv_keeper.specs.JudgeTable.{unknown, no_verdict, said_of, judged_in, inspected_by, judged_by};

use crate::judge::{Compared, Inspected, Judge};
use crate::judge_rows::{TextRow, VerdictRow};
use std::alloc::{AllocError, Global};
use vmv_edge::Text;

fn parses(said: Inspected) -> bool
    ensures { result ≡ parses said }
{
    !matches!(said, Inspected::Refused { .. })
}

fn said_of(texts: &[TextRow], text: &Text) -> Inspected
    ensures { result ≡ said_of texts.now text.now }
{
    for row in texts {
        if row.text == *text {
            return row.said;
        }
    }
    Inspected::Refused {
        number: 3,
        line: 1,
        column: 1,
    }
}

fn judged(alloc: Global, verdict: u8, json: &[u8]) -> Result<Compared, AllocError>
    ensures { IfOk result (λ said. said ≡ Compared.Judged verdict json.now) }
{
    Ok(Compared::Judged {
        verdict,
        json: Text::from_slice(alloc, json)?,
    })
}

fn judged_in(
    alloc: Global,
    verdicts: &[VerdictRow],
    base: &Text,
    revision: &Text,
) -> Result<Compared, AllocError>
    ensures { IfOk result (λ said. said ≡ judged_in verdicts.now base.now revision.now) }
{
    for row in verdicts {
        if row.base == *base && row.revision == *revision {
            return judged(alloc, row.verdict, row.json.bytes());
        }
    }
    judged(alloc, 2, b"{}")
}

/// A judge in memory, with a table of texts and one of verdicts on pairs of texts. A text that isn't in the
/// table is refused as a fault of syntax at its first place, and a pair that isn't has verdict 2.
#[derive(Debug, Drop)]
pub struct MemoryJudge {
    texts: Vec<TextRow>,
    verdicts: Vec<VerdictRow>,
}

impl MemoryJudge {
    /// A judge who refuses each text.
    pub fn new(alloc: Global) -> MemoryJudge
        ensures texts { (text : List ℕ) → inspected_by result text ≡ unknown }
        ensures verdicts { (base revision : List ℕ) → judged_by result base revision ≡ no_verdict }
    {
        MemoryJudge {
            texts: Vec::new(alloc),
            verdicts: Vec::new(alloc),
        }
    }

    /// Says this of the text, in place of what was said of it.
    pub fn inspects(&mut self, alloc: Global, text: &str, said: Inspected) -> Result<(), AllocError>
        ensures said { OnOk result ((asked : List ℕ) → inspected_by self.new asked ≡ (if pointwise nat_eq text.now asked then said else inspected_by self.old asked)) }
        ensures refused { OnErr result (inspected_by self.new ≡ inspected_by self.old) }
        ensures verdicts { judged_by self.new ≡ judged_by self.old }
    {
        let text = Text::from_slice(alloc, text.as_bytes())?;
        self.texts.insert(0, TextRow { text, said })?;
        Ok(())
    }

    /// Gives this verdict and report on the second text against the first, in place of those given before.
    pub fn judges(
        &mut self,
        alloc: Global,
        base: &str,
        revision: &str,
        verdict: u8,
        json: &str,
    ) -> Result<(), AllocError>
        ensures judged { OnOk result ((first second : List ℕ) → judged_by self.new first second ≡ (if pointwise nat_eq base.now first && pointwise nat_eq revision.now second then Compared.Judged verdict json.now else judged_by self.old first second)) }
        ensures refused { OnErr result (judged_by self.new ≡ judged_by self.old) }
        ensures texts { inspected_by self.new ≡ inspected_by self.old }
    {
        let row = VerdictRow {
            base: Text::from_slice(alloc, base.as_bytes())?,
            revision: Text::from_slice(alloc, revision.as_bytes())?,
            verdict,
            json: Text::from_slice(alloc, json.as_bytes())?,
        };
        self.verdicts.insert(0, row)?;
        Ok(())
    }
}

impl Judge for MemoryJudge {
    ghost use Rattle.vmv_keeper.specs.JudgeTable.{inspected_by, compared_by, Reaches, same, step, chain, utf8_said, readable_said_by, verdict_said, one_said};

    ghost inspected = { λ judge text said. said ≡ inspected_by judge text };

    ghost compared = { λ judge base revision said. said ≡ compared_by judge base revision };

    ghost keeps = { λ judge. Reaches (compared_by judge) };

    fn inspect(&self, _alloc: Global, text: &Text) -> Result<Inspected, AllocError> {
        Ok(said_of(self.texts.as_slice(), text))
    }

    fn compare(&self, alloc: Global, base: &Text, revision: &Text) -> Result<Compared, AllocError> {
        if !parses(said_of(self.texts.as_slice(), base)) {
            return Ok(Compared::Unreadable { which: 1 });
        }
        if !parses(said_of(self.texts.as_slice(), revision)) {
            return Ok(Compared::Unreadable { which: 2 });
        }
        judged_in(alloc, self.verdicts.as_slice(), base, revision)
    }

    ghost one_inspected = { λ judge text one other h k. one_said one other (inspected_by judge text) h k };

    ghost one_compared = { λ judge base revision one other h k. one_said one other (compared_by judge base revision) h k };

    ghost utf8 = { λ judge text said is h. utf8_said judge.texts.items text said is h };

    ghost readable = { λ judge base revision first second said h k is. readable_said_by judge base revision first second said h k is };

    ghost reflexive = { λ judge text said is h. same text };

    ghost transitive = { λ judge first second third h g. chain first second third h g };

    ghost sound = { λ judge base revision said is h. step base revision (verdict_said said (compared_by judge base revision) is h) };
}
