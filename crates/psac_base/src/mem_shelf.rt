// A shelf in memory.
ghost use Rattle.std.specs.Prelude.{◌≡◌, ◌↔◌, Some, None, IsTrue, option_map, string_bytes};
ghost use Rattle.psac_base.specs.Outside.{file_of};
ghost use Rattle.psac_base.specs.Files.{named, names_differ};

use crate::calls::Calls;
use crate::{Shelf, ShelfFault};
use std::alloc::Global;

/// Files in memory, with failures of their maker's choice. It tells its files, and keeps one count of faults
/// and one of overs for all names.
#[derive(Drop)]
pub struct MemShelf {
    files: Vec<(String, Vec<u8>)>,
    calls: Calls,
    overs: u64,
    ghost distinct: { IsTrue (names_differ (named files.items)) },
}

// The bytes of the first file of that name.
fn find<'a>(files: &'a [(String, Vec<u8>)], name: &str) -> Option<&'a Vec<u8>>
    ensures { option_map (λ bytes. bytes.now.items) result ≡ file_of (named files.now) name.now }
{
    for file in files {
        if file.0.as_str() == name {
            return Some(&file.1);
        }
    }
    None
}

impl MemShelf {
    ghost use Rattle.std.specs.Prelude.{List, ℕ};
    ghost use Rattle.psac_base.specs.MemShelf.{calls_of, fails_of};

    /// A shelf of these files, each with its name and its bytes. The loads whose numbers are in `fails` fail,
    /// where the first load has the number 1. `names_differ` tells whether the condition holds.
    pub fn new(files: Vec<(String, Vec<u8>)>, fails: Vec<u64>) -> MemShelf
        requires { IsTrue (names_differ (named files.items)) }
        ensures files { ⟦<MemShelf as Shelf>⟧.files result ≡ Some (named files.items) }
        ensures faults { (name : List ℕ) (most : ℕ) → ⟦<MemShelf as Shelf>⟧.faults result name most ≡ 0 }
        ensures overs { (name : List ℕ) (most : ℕ) → ⟦<MemShelf as Shelf>⟧.overs result name most ≡ 0 }
        ensures calls { calls_of result ≡ 0 }
        ensures fails { fails_of result ≡ fails.items }
    {
        MemShelf {
            files,
            calls: Calls::new(fails),
            overs: 0,
        }
    }

    /// Whether no two of these files have one name.
    pub fn names_differ(files: &[(String, Vec<u8>)]) -> bool
        ensures { result ≡ names_differ (named files.now) }
    {
        for i in 0..files.len() {
            if find(&files[i + 1..], &files[i].0).is_some() {
                return false;
            }
        }
        true
    }
}

impl Shelf for MemShelf {
    ghost use Rattle.std.specs.Prelude.{◌⊎◌, ◌≤◌, ◌+◌, ◌-◌, ◌^◌, [], Err, length, min, Contains, IfOk, IsErrOf};
    ghost use Rattle.psac_base.specs.Causes.{Rose};
    ghost use Rattle.psac_base.specs.Outside.{IsFile, IsOver, NoneFalls};
    ghost use Rattle.psac_base.specs.MemShelf.{calls_of, fails_of, files_of};

    ghost files = { λ s. Some (named s.files.items) };

    ghost faults = { λ s _ _. s.calls.faults };

    ghost overs = { λ s _ _. s.overs };

    fn load(&mut self, alloc: Global, name: &str, most: u64) -> Result<Vec<u8>, ShelfFault>
        ensures bytes { IfOk result (λ bytes. IsFile (⟦<MemShelf as Shelf>⟧.files self.old) name.now bytes.items) }
        ensures bound { IfOk result (λ bytes. length bytes.items ≤ most) }
        ensures same { ⟦<MemShelf as Shelf>⟧.files self.new ≡ ⟦<MemShelf as Shelf>⟧.files self.old }
        ensures later { NoneFalls (⟦<MemShelf as Shelf>⟧.faults self.old) (⟦<MemShelf as Shelf>⟧.faults self.new) }
        ensures later_over { NoneFalls (⟦<MemShelf as Shelf>⟧.overs self.old) (⟦<MemShelf as Shelf>⟧.overs self.new) }
        ensures failed { IsErrOf result ShelfFault.Failed
            → Rose (⟦<MemShelf as Shelf>⟧.faults self.old name.now most) (⟦<MemShelf as Shelf>⟧.faults self.new name.now most) }
        ensures too_large { IsErrOf result ShelfFault.TooLarge
            → Rose (⟦<MemShelf as Shelf>⟧.overs self.old name.now most) (⟦<MemShelf as Shelf>⟧.overs self.new name.now most) }
        ensures over { IsErrOf result ShelfFault.TooLarge → IsOver (⟦<MemShelf as Shelf>⟧.files self.old) name.now most }
        // It fails exactly where the call's number is listed or no file has the name.
        ensures listed { IsErrOf result ShelfFault.Failed
            ↔ (Contains (fails_of self.old) (calls_of self.new) ⊎ (file_of (files_of self.old) name.now ≡ None)) }
        ensures never { fails_of self.old ≡ [] → IsErrOf result ShelfFault.Failed → file_of (files_of self.old) name.now ≡ None }
        ensures calls { calls_of self.new ≡ min (calls_of self.old + 1) (2 ^ 64 - 1) }
        ensures fails { fails_of self.new ≡ fails_of self.old }
    {
        if self.calls.next_fails() {
            return Err(ShelfFault::Failed);
        }
        let Some(bytes) = find(&self.files, name) else {
            self.calls.count_fault();
            return Err(ShelfFault::Failed);
        };
        if bytes.len() as u64 > most {
            self.overs = self.overs.saturating_add(1);
            return Err(ShelfFault::TooLarge);
        }
        match bytes.to_vec(alloc) {
            Ok(copy) => Ok(copy),
            Err(_) => Err(ShelfFault::NoMemory),
        }
    }
}
