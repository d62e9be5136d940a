// A shelf over the files of a runtime.
ghost use Rattle.std.specs.Prelude.{◌≡◌, List, ℕ, Option, None};

use crate::{Shelf, ShelfFault};
use std::alloc::Global;
use std::fs;
use std::io::{ErrorKind, Read};
use std::rt::Files;

/// A shelf over files: a name is a path from the current folder. It doesn't tell its files, and keeps one
/// count of faults and one of overs for all names. A file that isn't there or can't be read is a fault, and
/// so is a folder.
#[derive(Drop)]
pub struct DirShelf<'a, R> {
    files: &'a R,
    faults: u64,
    overs: u64,
}

impl<'a, R: Files> DirShelf<'a, R> {
    /// Nothing was loaded through it yet.
    pub fn new(files: &'a R) -> Self
        ensures faults { (name : List ℕ) (most : ℕ) → ⟦<DirShelf<'a, R> as Shelf>⟧.faults result name most ≡ 0 }
        ensures overs { (name : List ℕ) (most : ℕ) → ⟦<DirShelf<'a, R> as Shelf>⟧.overs result name most ≡ 0 }
    {
        DirShelf {
            files,
            faults: 0,
            overs: 0,
        }
    }
}

// The first bytes of a file, one more than `most` where it has more.
fn front_of<R: Files>(
    files: &R,
    alloc: Global,
    name: &str,
    most: u64,
) -> Result<Vec<u8>, ErrorKind> {
    let mut bytes = Vec::new(alloc);
    let file = match fs::open(files, name) {
        Ok(file) => file,
        Err(error) => return Err(error.kind()),
    };
    match file.take(most.saturating_add(1)).read_to_end(&mut bytes) {
        Ok(_) => Ok(bytes),
        Err(error) => Err(error.kind()),
    }
}

impl<R: Files> Shelf for DirShelf<'_, R> {
    ghost files = { λ _. None };

    ghost faults = { λ s _ _. s.faults };

    ghost overs = { λ s _ _. s.overs };

    fn load(&mut self, alloc: Global, name: &str, most: u64) -> Result<Vec<u8>, ShelfFault> {
        match front_of(self.files, alloc, name, most) {
            Ok(bytes) if bytes.len() as u64 > most => {
                self.overs = self.overs.saturating_add(1);
                Err(ShelfFault::TooLarge)
            }
            Ok(bytes) => Ok(bytes),
            Err(ErrorKind::OutOfMemory) => Err(ShelfFault::NoMemory),
            Err(_) => {
                self.faults = self.faults.saturating_add(1);
                Err(ShelfFault::Failed)
            }
        }
    }
}
