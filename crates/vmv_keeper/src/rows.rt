ghost use Rattle.std.specs.Prelude.{◌≡◌, ◌++◌, ◌∷◌, [], ◌<◌, length, remove, IfOk, OnOk, OnErr};
ghost use Rattle.std.specs.Cmp.Lexicographic.{pointwise, lists_per, lists_equiv};

use std::alloc::{AllocError, Global};
use std::marker::Model;

/// Rows in an order, which a contract sees as their list.
#[derive(Debug, Drop)]
pub struct Rows<T> {
    rows: Vec<T>,
}

impl<T> Model for Rows<T> {
    ghost use Rattle.std.specs.Prelude.{List};
    ghost use Rattle.std.specs.Coded.{coded_list};

    ghost Value = { List T };

    ghost coded = { coded_list T.code };

    ghost view = { λ rows. rows.rows.items };
}

impl<T> Rows<T> {
    /// No rows.
    pub fn new(alloc: Global) -> Rows<T>
        ensures { result ≡ [] }
    {
        Rows {
            rows: Vec::new(alloc),
        }
    }

    /// These rows.
    pub fn from_vec(rows: Vec<T>) -> Rows<T>
        ensures { result ≡ rows.items }
    {
        Rows { rows }
    }

    /// Gives the rows back, without memory.
    pub fn into_vec(self) -> Vec<T>
        ensures { result.items ≡ self }
    {
        let Rows { rows } = self;
        rows
    }

    pub fn as_slice(&self) -> &[T]
        ensures { result.now ≡ self.now }
    {
        self.rows.as_slice()
    }

    pub fn len(&self) -> usize
        ensures { result ≡ length self.now }
    {
        self.rows.len()
    }
}

impl<T: Copy> Rows<T> {
    /// A second list of the same rows. It fails where there is no memory.
    pub fn copy(&self, alloc: Global) -> Result<Rows<T>, AllocError>
        ensures { IfOk result (λ rows. rows ≡ self.now) }
    {
        let rows = Vec::from_slice(alloc, self.rows.as_slice())?;
        Ok(Rows { rows })
    }
}

impl<T: Drop> Rows<T> {
    /// The row, alone. It fails where there is no memory.
    pub fn of(alloc: Global, row: T) -> Result<Rows<T>, AllocError>
        ensures { IfOk result (λ rows. rows ≡ row ∷ []) }
    {
        let mut rows = Vec::new(alloc);
        rows.push(row)?;
        Ok(Rows { rows })
    }

    /// Puts the row behind the others. It fails, with the rows as they were, where there is no memory.
    pub fn push(&mut self, row: T) -> Result<(), AllocError>
        ensures ok { OnOk result (self.new ≡ self.old ++ row ∷ []) }
        ensures err { OnErr result (self.new ≡ self.old) }
    {
        self.rows.push(row)?;
        Ok(())
    }

    /// Takes the row at this place out.
    pub fn remove(&mut self, place: usize)
        requires { place < length self.old }
        ensures { self.new ≡ remove self.old place }
    {
        let _ = self.rows.remove(place);
    }
}

impl<T: PartialEq> PartialEq for Rows<T> {
    ghost eq = { pointwise T.eq };

    ghost laws = { lists_per T.laws };

    fn eq(&self, other: &Self) -> bool {
        self.as_slice() == other.as_slice()
    }
}

impl<T: Eq> Eq for Rows<T> {
    ghost laws = { lists_equiv T.Eq.laws };
}
