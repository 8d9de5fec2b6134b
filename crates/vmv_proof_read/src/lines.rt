ghost use Rattle.std.specs.Prelude.{◌≡◌, ◌↔◌, [], IfOk, IfErr, IsTrue};
ghost use Rattle.vmv_witness.specs.Reading.{lacks, SplitsAt};
ghost use Rattle.vmv_proof_text.specs.Parts.{opening_part, exclusions_part, exclude_part, box_part, table_part, row_part, input_part, keep_part, result_part, left_part, entries_part, plain_part, given_part, end_part};
ghost use Rattle.vmv_proof_line.specs.declared.fault.LineFault.TheVariants.{Form};
ghost use Rattle.vmv_proof_read.specs.Reading.{Reads, Any, only};

use memchr::memchr;
use std::alloc::Global;
use std::marker::Model;
use vmv_cert::{Reach, Sites};
use vmv_proof_line::{
    ExcludeHead, LineFault, RowHead, is_end, is_given, is_opening, read_box, read_entries,
    read_exclude, read_exclusions, read_input, read_keep, read_left, read_plain, read_result,
    read_row, read_table,
};
use vmv_snapshot::ParamBox;
use vmv_tree::Name;
use vmv_zone::Zone;

/// What is left of a text, which is read line by line. Where the next line isn't what was asked for, it stays next.
#[derive(Drop)]
pub(crate) struct Lines<'a> {
    left: &'a [u8],
}

impl<'a> Model for Lines<'a> {
    ghost use Rattle.std.specs.Prelude.{ℕ, List};

    ghost Value = { List ℕ };

    ghost view = { λ lines. lines.left.now };
}

impl<'a> Lines<'a> {
    pub(crate) fn new(text: &'a [u8]) -> Lines<'a>
        ensures { result ≡ text.now }
    {
        Lines { left: text }
    }

    /// What is left.
    pub(crate) fn rest(&self) -> &'a [u8]
        ensures { result.now ≡ self.now }
    {
        self.left
    }

    /// Whether nothing is left.
    pub(crate) fn is_at_end(&self) -> bool
        ensures { IsTrue result ↔ (self.now ≡ []) }
    {
        self.left.is_empty()
    }

    /// The next line, without its LF, and what stands behind it.
    fn next(&self) -> Result<(&'a [u8], &'a [u8]), LineFault>
        ensures ok { IfOk result (λ parts. SplitsAt 10 self.now parts.0.now parts.1.now) }
        ensures none { IfErr result (λ fault. (fault ≡ Form) × IsTrue (lacks 10 self.now)) }
    {
        let Some(at) = memchr(b'\n', self.left) else {
            return Err(LineFault::Form);
        };
        Ok((&self.left[..at], &self.left[at + 1..]))
    }

    /// Takes the line of how many exclusions follow.
    pub(crate) fn take_exclusions(&mut self) -> Result<u32, LineFault>
        ensures { Reads Any (only exclusions_part) self.old self.new result }
    {
        let (line, left) = self.next()?;
        let told = read_exclusions(line)?;
        self.left = left;
        Ok(told)
    }

    /// Takes the first line of an exclusion.
    pub(crate) fn take_exclude(&mut self) -> Result<ExcludeHead, LineFault>
        ensures { Reads Any (only (λ h. exclude_part h.entry h.name h.piece h.under)) self.old self.new result }
    {
        let (line, left) = self.next()?;
        let told = read_exclude(line)?;
        self.left = left;
        Ok(told)
    }

    /// Takes the line of a box.
    pub(crate) fn take_box(&mut self) -> Result<ParamBox, LineFault>
        ensures { Reads Any (only box_part) self.old self.new result }
    {
        let (line, left) = self.next()?;
        let told = read_box(line)?;
        self.left = left;
        Ok(told)
    }

    /// Takes the line of how many rows follow.
    pub(crate) fn take_table(&mut self) -> Result<u32, LineFault>
        ensures { Reads Any (only table_part) self.old self.new result }
    {
        let (line, left) = self.next()?;
        let told = read_table(line)?;
        self.left = left;
        Ok(told)
    }

    /// Takes the first line of a row.
    pub(crate) fn take_row(&mut self) -> Result<RowHead, LineFault>
        ensures { Reads Any (only (λ h. row_part h.proc h.loops)) self.old self.new result }
    {
        let (line, left) = self.next()?;
        let told = read_row(line)?;
        self.left = left;
        Ok(told)
    }

    /// Takes the line of an input.
    pub(crate) fn take_input(&mut self) -> Result<Zone, LineFault>
        ensures { Reads Any (only input_part) self.old self.new result }
    {
        let (line, left) = self.next()?;
        let told = read_input(line)?;
        self.left = left;
        Ok(told)
    }

    /// Takes the line of a state at a loop.
    pub(crate) fn take_keep(&mut self) -> Result<Zone, LineFault>
        ensures { Reads Any (only keep_part) self.old self.new result }
    {
        let (line, left) = self.next()?;
        let told = read_keep(line)?;
        self.left = left;
        Ok(told)
    }

    /// Takes the line of a result.
    pub(crate) fn take_result(&mut self) -> Result<Reach, LineFault>
        ensures { Reads Any (only result_part) self.old self.new result }
    {
        let (line, left) = self.next()?;
        let told = read_result(line)?;
        self.left = left;
        Ok(told)
    }

    /// Takes the line of the sites that may fail.
    pub(crate) fn take_left(&mut self, alloc: Global) -> Result<Sites, LineFault>
        ensures { Reads Any (only left_part) self.old self.new result }
    {
        let (line, left) = self.next()?;
        let told = read_left(alloc, line)?;
        self.left = left;
        Ok(told)
    }

    /// Takes the line of how many entries follow.
    pub(crate) fn take_entries(&mut self) -> Result<u32, LineFault>
        ensures { Reads Any (only entries_part) self.old self.new result }
    {
        let (line, left) = self.next()?;
        let told = read_entries(line)?;
        self.left = left;
        Ok(told)
    }

    /// Takes the line of an entry before its table under the whole assumption.
    pub(crate) fn take_plain(&mut self) -> Result<Name, LineFault>
        ensures { Reads Any (only plain_part) self.old self.new result }
    {
        let (line, left) = self.next()?;
        let told = read_plain(line)?;
        self.left = left;
        Ok(told)
    }

    /// Takes the first line of a proof.
    pub(crate) fn take_opening(&mut self) -> Result<(), LineFault>
        ensures { Reads Any (only (λ _. opening_part)) self.old self.new result }
    {
        let (line, left) = self.next()?;
        if !is_opening(line) {
            return Err(LineFault::Form);
        }
        self.left = left;
        Ok(())
    }

    /// Takes the line of the entry before its table under the assumption that exclusions cut.
    pub(crate) fn take_given(&mut self, entry: &Name) -> Result<(), LineFault>
        ensures { Reads Any (only (λ _. given_part entry.now)) self.old self.new result }
    {
        let (line, left) = self.next()?;
        if !is_given(line, entry) {
            return Err(LineFault::Form);
        }
        self.left = left;
        Ok(())
    }

    /// Takes the last line of a proof.
    pub(crate) fn take_end(&mut self) -> Result<(), LineFault>
        ensures { Reads Any (only (λ _. end_part)) self.old self.new result }
    {
        let (line, left) = self.next()?;
        if !is_end(line) {
            return Err(LineFault::Form);
        }
        self.left = left;
        Ok(())
    }
}
