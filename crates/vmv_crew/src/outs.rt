ghost use Rattle.std.specs.Prelude.{◌≡◌, List, length, slice_get};
ghost use Rattle.std.specs.Option.{option_copied};

use std::marker::Model;

/// The answers of a job, in the order of the places.
#[derive(Drop)]
pub struct Outs<T> {
    list: Vec<T>,
}

impl<T> Model for Outs<T> {
    ghost Value = { List T };

    ghost view = { λ outs. outs.list.items };
}

impl<T> Outs<T> {
    /// The answers in a vector, without memory.
    pub fn from_vec(list: Vec<T>) -> Self
        ensures { result ≡ list.items }
    {
        Outs { list }
    }

    /// The vector of the answers, without memory.
    pub fn into_vec(self) -> Vec<T>
        ensures { result.items ≡ self }
    {
        self.list
    }

    /// The answers.
    pub fn as_slice(&self) -> &[T]
        ensures { result.now ≡ self.now }
    {
        self.list.as_slice()
    }

    /// How many answers there are.
    pub fn len(&self) -> usize
        ensures { result ≡ length self.now }
    {
        self.list.len()
    }

    /// The answer of a place, and `None` exactly where there is none.
    pub fn get(&self, place: usize) -> Option<&T>
        ensures { option_copied result ≡ slice_get self.now place }
    {
        self.list.get(place)
    }
}
