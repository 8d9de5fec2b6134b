ghost use Rattle.std.specs.Prelude.{◌≡◌, None};

use crate::faults::Faults;
use crate::shelf::{Shelf, ShelfFault};
use crate::text::Text;
use std::alloc::Global;
use std::fs::File;
use std::io::{ErrorKind, Read};
use std::rt::Files;

/// The files of the machine as a shelf, under their paths. What they hold isn't told.
#[derive(Drop)]
pub struct FileShelf<'r, R: Files> {
    rt: &'r R,
    faults: Faults,
}

impl<'r, R: Files> FileShelf<'r, R> {
    /// The files that the runtime reaches.
    pub fn new(rt: &'r R) -> FileShelf<'r, R>
        ensures { ⟦<FileShelf<'r, R> as Shelf>⟧.fault_count result ≡ 0 }
    {
        FileShelf {
            rt,
            faults: Faults::none(),
        }
    }
}

impl<'r, R: Files> Shelf for FileShelf<'r, R> {
    ghost told = { λ shelf name. None };

    ghost fault_count = { λ shelf. shelf.faults.count };

    /// Reads at most `most` bytes and one more. A read that was interrupted is tried again, by std.
    fn read(&mut self, alloc: Global, name: &str, most: usize) -> Result<Text, ShelfFault> {
        let Ok(file) = File::open(self.rt, name) else {
            self.faults.rise();
            return Err(ShelfFault::Failed);
        };
        let mut bytes = Vec::new(alloc);
        let mut part = file.take((most as u64).saturating_add(1));
        if let Err(error) = part.read_to_end(&mut bytes) {
            if error.kind() == ErrorKind::OutOfMemory {
                return Err(ShelfFault::Memory);
            }
            self.faults.rise();
            return Err(ShelfFault::Failed);
        }
        if bytes.len() > most {
            return Err(ShelfFault::TooLong);
        }
        Ok(Text::from_vec(bytes))
    }

    fn faults(&self) -> u64 {
        self.faults.count()
    }
}
