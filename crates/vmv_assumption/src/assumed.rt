ghost use Rattle.std.specs.Prelude.{◌≡◌, ◌↔◌, map, position, IsTrue, IsFalse, IfOk};
ghost use Rattle.std.specs.List.{Contains};
ghost use Rattle.vmv_tree.specs.declared.name.Name.{Name};
ghost use Rattle.vmv_snapshot.specs.Procs.{outsides};
ghost use Rattle.vmv_snapshot.specs.Resolution.{tree_of};
ghost use Rattle.vmv_assumption.specs.Whole.{whole};
ghost use Rattle.vmv_assumption.specs.Assumed.{names_of, is_for, cond_of};
ghost use Rattle.vmv_assumption.specs.Change.{IsSet, IsKept, IsCut};

use std::alloc::{AllocError, Global};
use std::marker::Model;
use vmv_cond::{Cond, Piece};
use vmv_snapshot::Snapshot;
use vmv_tree::Name;

/// What is assumed of the answers of outside functions: a condition for each outside name of a program. A name that it
/// doesn't hold has the whole condition. A contract sees it as the list of the names with their conditions.
#[derive(Drop)]
pub struct Assumption {
    held: Vec<(Name, Cond)>,
}

impl Model for Assumption {
    ghost use Rattle.std.specs.Prelude.{List};
    ghost use Rattle.vmv_tree.specs.declared.name.Name.{Name};
    ghost use Rattle.vmv_cond.specs.declared.cond.Cond.{Cond};

    ghost Value = { List (Name × Cond) };

    ghost view = { λ a. a.held.items };
}

/// The whole condition, which holds every word.
fn whole_cond() -> Cond
    ensures { result ≡ whole }
{
    Cond::of(i64::MIN, i64::MAX, false)
}

/// Each name with this condition.
fn all_held(alloc: Global, names: &[Name], cond: Cond) -> Result<Vec<(Name, Cond)>, AllocError>
    ensures { IfOk result (λ held. held.items ≡ map (λ name. (name, cond)) names.now) }
{
    names.iter().map(|name| (*name, cond)).collect(alloc)
}

/// Where a name is held.
fn place(held: &[(Name, Cond)], name: &Name) -> Option<usize>
    ensures { result ≡ position (is_for name.now) held.now }
{
    held.iter().position(|h| h.0.bytes() == name.bytes())
}

impl Assumption {
    /// The whole condition for each outside name of the program. It fails for want of memory alone.
    pub fn whole(alloc: Global, snapshot: &Snapshot) -> Result<Assumption, AllocError>
        ensures names { IfOk result (λ a. names_of a ≡ outsides (tree_of snapshot.now)) }
        ensures conds { IfOk result (λ a. (name : Name) → cond_of a name ≡ whole) }
    {
        let whole = whole_cond();
        let held = all_held(alloc, snapshot.outsides(), whole)?;
        Ok(Assumption { held })
    }

    /// The names that it holds with their conditions, in the order of the program's text.
    pub fn conds(&self) -> &[(Name, Cond)]
        ensures { result.now ≡ self.now }
    {
        self.held.as_slice()
    }

    /// The condition of a name: the whole one where the name isn't held.
    pub fn get(&self, name: &Name) -> Cond
        ensures { result ≡ cond_of self.now name.now }
    {
        match place(self.held.as_slice(), name) {
            Some(i) => self.held[i].1,
            None => whole_cond(),
        }
    }

    /// Gives a name another condition. It answers `false` exactly where the name isn't held; then nothing changes.
    pub fn set(&mut self, name: &Name, cond: Cond) -> bool
        ensures held { IsTrue result ↔ Contains (names_of self.old) name.now }
        ensures names { names_of self.new ≡ names_of self.old }
        ensures conds { IsTrue result → IsSet (cond_of self.old) name.now cond (cond_of self.new) }
        ensures unchanged { IsFalse result → self.new ≡ self.old }
    {
        match place(self.held.as_slice(), name) {
            Some(i) => {
                self.held[i] = (*name, cond);
                true
            }
            None => false,
        }
    }

    /// Keeps a name's condition to a piece. It answers `false` exactly where the name isn't held; then nothing changes.
    pub fn keep_to(&mut self, name: &Name, piece: Piece) -> bool
        ensures held { IsTrue result ↔ Contains (names_of self.old) name.now }
        ensures names { names_of self.new ≡ names_of self.old }
        ensures conds { IsTrue result → IsKept (cond_of self.old) name.now piece (cond_of self.new) }
        ensures unchanged { IsFalse result → self.new ≡ self.old }
    {
        let kept = self.get(name).within(piece);
        self.set(name, kept)
    }

    /// Takes the words of a piece out of a name's condition. It answers `false` exactly where the name isn't held; then
    /// nothing changes.
    pub fn cut(&mut self, name: &Name, piece: Piece) -> bool
        ensures held { IsTrue result ↔ Contains (names_of self.old) name.now }
        ensures names { names_of self.new ≡ names_of self.old }
        ensures conds { IsTrue result → IsCut (cond_of self.old) name.now piece (cond_of self.new) }
        ensures unchanged { IsFalse result → self.new ≡ self.old }
    {
        let left = self.get(name).cut(piece);
        self.set(name, left)
    }

    /// An equal assumption. It fails for want of memory alone.
    pub fn copy(&self, alloc: Global) -> Result<Assumption, AllocError>
        ensures { IfOk result (λ a. a ≡ self.now) }
    {
        let held = Vec::from_slice(alloc, self.held.as_slice())?;
        Ok(Assumption { held })
    }
}
