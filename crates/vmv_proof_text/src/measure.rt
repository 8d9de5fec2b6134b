ghost use Rattle.std.specs.Prelude.{◌≡◌, ◌+◌, [], ◌++◌, length, OnOk, IfOk};
ghost use Rattle.std.specs.List.{flat_map};
ghost use Rattle.vmv_proof_text.specs.Lengths.{capped, Adds};
ghost use Rattle.vmv_proof_text.specs.Parts.{parts_of_row, parts_of_table, parts_of_exclusion, parts_of_shown};
ghost use Rattle.vmv_proof_text.specs.Text.{parts_text, proof_text};

use crate::tables::{push_row, push_table_heading};
use crate::write::{
    push_box, push_entries_heading, push_exclude, push_exclusions_heading, push_given, push_last,
    push_opening, push_plain,
};
use std::alloc::{AllocError, Global};
use vmv_cert::{Row, Table};
use vmv_proof::{Exclusion, Proof, Shown};

/// A length that is added up, a line or some lines at a time, which are written to be measured and then let go.
#[derive(Drop)]
struct Measure {
    lines: Vec<u8>,
    total: u64,
}

impl Measure {
    /// Adds the length of the lines that are written, and lets them go.
    #[tactic(auto, unfolding(crate::specs::Lengths::capped))]
    fn add(&mut self)
        ensures total { self.new.total ≡ capped (self.old.total + length self.old.lines.items) }
        ensures lines { self.new.lines.items ≡ [] }
    {
        self.total = self.total.saturating_add(self.lines.len() as u64);
        self.lines.clear();
    }

    /// Adds a row.
    #[tactic(auto, using(crate::proofs::Measuring::measuring))]
    fn add_row(&mut self, row: &Row) -> Result<(), AllocError>
        requires { self.old.lines.items ≡ [] }
        ensures { OnOk result ((self.new.lines.items ≡ []) × Adds self.old.total self.new.total (length (parts_text (parts_of_row row.now)))) }
    {
        push_row(&mut self.lines, row)?;
        self.add();
        Ok(())
    }

    /// Adds rows.
    fn add_rows(&mut self, rows: &[Row]) -> Result<(), AllocError>
        requires { self.old.lines.items ≡ [] }
        ensures { OnOk result ((self.new.lines.items ≡ []) × Adds self.old.total self.new.total (length (parts_text (flat_map parts_of_row rows.now)))) }
    {
        for row in rows {
            self.add_row(row)?;
        }
        Ok(())
    }

    /// Adds a table, and the lines that are written before it.
    #[tactic(auto, using(crate::proofs::Measuring::measuring))]
    fn add_table(&mut self, table: &Table) -> Result<(), AllocError>
        ensures { OnOk result ((self.new.lines.items ≡ []) × Adds self.old.total self.new.total (length (self.old.lines.items ++ parts_text (parts_of_table table.now)))) }
    {
        push_table_heading(&mut self.lines, table.rows.len())?;
        self.add();
        self.add_rows(table.rows.as_slice())?;
        Ok(())
    }

    /// Adds an exclusion.
    #[tactic(auto, using(crate::proofs::Measuring::measuring))]
    fn add_exclusion(&mut self, exclusion: &Exclusion) -> Result<(), AllocError>
        requires { self.old.lines.items ≡ [] }
        ensures { OnOk result ((self.new.lines.items ≡ []) × Adds self.old.total self.new.total (length (parts_text (parts_of_exclusion exclusion.now)))) }
    {
        push_exclude(&mut self.lines, exclusion)?;
        push_box(&mut self.lines, &exclusion.within)?;
        self.add_table(&exclusion.table)?;
        Ok(())
    }

    /// Adds exclusions.
    fn add_exclusions(&mut self, exclusions: &[Exclusion]) -> Result<(), AllocError>
        requires { self.old.lines.items ≡ [] }
        ensures { OnOk result ((self.new.lines.items ≡ []) × Adds self.old.total self.new.total (length (parts_text (flat_map parts_of_exclusion exclusions.now)))) }
    {
        for exclusion in exclusions {
            self.add_exclusion(exclusion)?;
        }
        Ok(())
    }

    /// Adds what is shown of an entry.
    #[tactic(auto, using(crate::proofs::Measuring::measuring))]
    fn add_shown(&mut self, shown: &Shown) -> Result<(), AllocError>
        requires { self.old.lines.items ≡ [] }
        ensures { OnOk result ((self.new.lines.items ≡ []) × Adds self.old.total self.new.total (length (parts_text (parts_of_shown shown.now)))) }
    {
        push_plain(&mut self.lines, &shown.entry)?;
        self.add_table(&shown.plain)?;
        push_given(&mut self.lines, &shown.entry)?;
        self.add_table(&shown.given)?;
        Ok(())
    }

    /// Adds what is shown of entries.
    fn add_shown_list(&mut self, shown: &[Shown]) -> Result<(), AllocError>
        requires { self.old.lines.items ≡ [] }
        ensures { OnOk result ((self.new.lines.items ≡ []) × Adds self.old.total self.new.total (length (parts_text (flat_map parts_of_shown shown.now)))) }
    {
        for entry in shown {
            self.add_shown(entry)?;
        }
        Ok(())
    }
}

/// The length of the canonical text of a proof, in bytes, of which no more than a row is made at a time; the greatest
/// `u64` where the length is past that. It fails where there is no memory.
#[tactic(auto, using(crate::proofs::Measuring::measuring))]
pub fn proof_length(alloc: Global, proof: &Proof) -> Result<u64, AllocError>
    ensures { IfOk result (λ total. total ≡ capped (length (proof_text proof.now))) }
{
    let mut measure = Measure {
        lines: Vec::new(alloc),
        total: 0,
    };
    push_opening(&mut measure.lines)?;
    push_exclusions_heading(&mut measure.lines, proof.exclusions.len())?;
    measure.add();
    measure.add_exclusions(proof.exclusions.as_slice())?;
    push_entries_heading(&mut measure.lines, proof.shown.len())?;
    measure.add();
    measure.add_shown_list(proof.shown.as_slice())?;
    push_last(&mut measure.lines)?;
    measure.add();
    Ok(measure.total)
}
