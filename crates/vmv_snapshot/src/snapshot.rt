ghost use Rattle.std.specs.Prelude.{◌≡◌, ◌↔◌, ◌<◌, Some, length, map, slice_get, IsTrue, IsSome, IfSome, IfOk, IfErr};
ghost use Rattle.std.specs.List.{Contains};
ghost use Rattle.vmv_tree.specs.Run.{name_of};
ghost use Rattle.vmv_tree.specs.View.{program_of};
ghost use Rattle.vmv_tree.specs.Valid.{Valid};
ghost use Rattle.vmv_snapshot.specs.View.{code_of};
ghost use Rattle.vmv_snapshot.specs.Procs.{outsides, is_entry, params_of};
ghost use Rattle.vmv_snapshot.specs.Resolves.{IsCode};
ghost use Rattle.vmv_snapshot.specs.Reaches.{Reaches};
ghost use Rattle.vmv_snapshot.specs.Tables.{body_sites};
ghost use Rattle.vmv_snapshot.specs.Faults.{IsWhy};
ghost use Rattle.vmv_snapshot.specs.Resolution.{Resolution, tree_of, procs_of, IsResolution};

use crate::code::{Code, ProcId};
use crate::fault::NewFault;
use crate::reach::{ProcSet, reach_rows};
use crate::resolve::resolve;
use crate::tables::Tables;
use std::alloc::{AllocError, Global};
use std::marker::Model;
use vmv_tree::{Name, Params, Program};
use vmv_valid::{FoundDefect, first_defect};

/// An immutable valid program, with its procedures resolved. A contract sees it as the program and the code of each
/// procedure. The procedures, which are the helpers and the entries, are numbered in text order from 0.
#[derive(Drop)]
pub struct Snapshot {
    program: Program,
    tables: Tables,
    reached: Vec<ProcSet>,
}

impl Model for Snapshot {
    ghost use Rattle.std.specs.Prelude.{map};
    ghost use Rattle.vmv_snapshot.specs.Resolution.{Resolution, IsKept};
    ghost use Rattle.std.specs.Coded.{codes};
    ghost use Rattle.vmv_tree.specs.contracts.tree.Stmt as stmt;
    ghost use Rattle.vmv_snapshot.specs.contracts.code.CodeStmt as code;

    ghost Value = { Resolution };

    ghost coded = { Prim.hlevel (codes, stmt.the_row.coded, code.the_row.coded) };

    ghost view = { λ s. record { program = s.program; codes = map (λ p. p.code) s.tables.procs.items } };

    ghost invariant = { λ s. IsKept s.program s.tables s.reached.items };
}

impl Snapshot {
    /// The snapshot of a program, which is given away either way. It fails exactly where the program isn't valid, with its
    /// first defect, and for want of memory.
    pub fn new(alloc: Global, program: Program) -> Result<Snapshot, NewFault>
        ensures program { IfOk result (λ s. s.program ≡ program) }
        ensures valid { IfOk result (λ s. Valid (program_of program)) }
        ensures fault { IfErr result (IsWhy (program_of program)) }
    {
        if let Some(FoundDefect { mention, defect }) = first_defect(alloc, &program)? {
            return Err(NewFault::Defect { mention, defect });
        }
        Ok(Snapshot::resolved(alloc, program)?)
    }

    fn resolved(alloc: Global, program: Program) -> Result<Snapshot, AllocError>
        requires { Valid (program_of program) }
        ensures { IfOk result (λ s. s.program ≡ program) }
    {
        let tables = resolve(alloc, &program)?;
        let reached = reach_rows(alloc, tables.procs.as_slice())?;
        Ok(Snapshot {
            program,
            tables,
            reached,
        })
    }

    /// The program.
    pub fn program(&self) -> &Program
        ensures program { result.now ≡ self.now.program }
        ensures resolution { IsResolution self.now }
    {
        &self.program
    }

    /// The outside names, in text order.
    pub fn outsides(&self) -> &[Name]
        ensures { result.now ≡ outsides (tree_of self.now) }
    {
        self.tables.outsides.as_slice()
    }

    /// How many procedures there are, at most 128.
    pub fn proc_count(&self) -> u16
        ensures { result ≡ length (procs_of self.now) }
    {
        self.tables.procs.len() as u16
    }

    /// The name of a procedure.
    pub fn proc_name(&self, proc: ProcId) -> Name
        requires { proc.0 < length (procs_of self.now) }
        ensures { slice_get (map name_of (procs_of self.now)) proc.0 ≡ Some result }
    {
        self.tables.procs[proc.0 as usize].name
    }

    /// Whether a procedure is an entry.
    pub fn is_entry(&self, proc: ProcId) -> bool
        requires { proc.0 < length (procs_of self.now) }
        ensures { slice_get (map is_entry (procs_of self.now)) proc.0 ≡ Some result }
    {
        self.tables.procs[proc.0 as usize].entry
    }

    /// The resolved body of a procedure.
    pub fn code(&self, proc: ProcId) -> &Code
        requires { proc.0 < length (procs_of self.now) }
        ensures kept { slice_get self.now.codes proc.0 ≡ Some result.now }
        ensures resolved { IsCode (tree_of self.now) proc.0 (code_of result.now) }
    {
        &self.tables.procs[proc.0 as usize].code
    }

    /// The parameters of a procedure. Those of a helper have the range of all words.
    pub fn params(&self, proc: ProcId) -> &Params
        requires { proc.0 < length (procs_of self.now) }
        ensures { slice_get (map params_of (procs_of self.now)) proc.0 ≡ Some result.now }
    {
        &self.tables.procs[proc.0 as usize].params
    }

    /// The number of sites of a procedure, which are numbered from 1.
    pub fn site_count(&self, proc: ProcId) -> u32
        requires { proc.0 < length (procs_of self.now) }
        ensures { slice_get (map body_sites (procs_of self.now)) proc.0 ≡ Some result }
    {
        self.tables.procs[proc.0 as usize].sites
    }

    /// The procedure of this name, and `None` where there is none.
    pub fn find_proc(&self, name: &Name) -> Option<ProcId>
        ensures found { IsSome result ↔ Contains (map name_of (procs_of self.now)) name.now }
        ensures named { IfSome result (λ proc. slice_get (map name_of (procs_of self.now)) proc.0 ≡ Some name.now) }
    {
        let number = self.tables.names.get_index_of(name)?;
        Some(ProcId(number as u16))
    }

    /// Whether the one procedure is the other, or a chain of calls leads from it there.
    pub fn reaches(&self, from: ProcId, to: ProcId) -> bool
        requires from { from.0 < length (procs_of self.now) }
        requires to { to.0 < length (procs_of self.now) }
        ensures { IsTrue result ↔ Reaches (tree_of self.now) from.0 to.0 }
    {
        (self.reached[from.0 as usize] >> to.0) & 1 == 1
    }
}
