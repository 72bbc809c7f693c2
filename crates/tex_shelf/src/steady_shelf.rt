// A shelf in memory that never fails.
ghost use Rattle.std.specs.Prelude.{◌≡◌, ◌<◌, ◌≤◌, [], ◌++◌, ℕ, List, min, length, take, drop, Some, None, IfOk, OnOk, OnErr, IsErrOf, IsSome, option_copied, refl};
ghost use Rattle.std.specs.FinMap.{empty, insert};
ghost use Rattle.tex_shelf.specs.Files.{file_at, appended};
ghost use Rattle.tex_shelf.specs.Faults.{Counts};
ghost use Rattle.tex_shelf.specs.States.{SteadyState};

use crate::buffer::copy_front;
use crate::folder::Folder;
use crate::{NoMemory, Shelf, ShelfStop};
use std::alloc::Global;
use std::marker::Model;

/// A shelf that keeps its files, can open exactly these, and never fails.
#[derive(Drop)]
pub struct SteadyShelf {
    alloc: Global,
    folder: Folder,
    /// A copy of the opened file; the bytes before `taken` were taken.
    input: Vec<u8>,
    at: usize,
}

impl Model for SteadyShelf {
    ghost use Rattle.std.specs.Prelude.{◌≤◌, drop, length};
    ghost use Rattle.tex_shelf.specs.States.{SteadyState, steady_code};

    ghost Value = { SteadyState };

    ghost coded = { steady_code };

    ghost view = { λ s. record {
      files = s.folder.files;
      left = drop s.at s.input.items;
      target = s.folder.target;
    } };

    ghost invariant = { λ s. s.at ≤ length s.input.items };
}

impl SteadyShelf {
    /// A shelf with no files and nothing opened, so that nothing is left.
    pub fn new(alloc: Global) -> Self
        ensures { result ≡ record { files = empty; left = []; target = None } }
    {
        SteadyShelf {
            alloc,
            folder: Folder::new(alloc),
            input: Vec::new(alloc),
            at: 0,
        }
    }

    /// Sets a file, instead of one of its name.
    ///
    /// # Errors
    ///
    /// `NoMemory`, and then nothing has changed.
    pub fn add_file(&mut self, name: &str, bytes: &[u8]) -> Result<(), NoMemory>
        ensures ok { OnOk result
            (self.new ≡ record self.old { files = insert self.old.files name.now bytes.now }) }
        ensures err { OnErr result (self.new ≡ self.old) }
    {
        self.folder.set(name, bytes)
    }

    /// The bytes of a file, or `None` if there is no file with this name.
    pub fn file(&self, name: &str) -> Option<&[u8]>
        ensures { option_copied result ≡ file_at self.now.files name.now }
    {
        self.folder.file(name)
    }
}

impl Shelf for SteadyShelf {
    ghost files = { λ s. Some s.files };

    ghost left = { λ s. Some s.left };

    ghost target = { λ s. s.target };

    ghost read_faults = { λ s. 0 };

    ghost write_faults = { λ s. 0 };

    ghost can_open = { λ s name. IsSome (file_at s.files name) };

    ghost can_create = { λ s name. Unit {0} };

    ghost tells_left = { λ s told. refl };

    fn open(&mut self, name: &str) -> Result<(), ShelfStop> {
        let Some(bytes) = self.folder.file(name) else {
            unreachable!();
        };
        self.input = Vec::from_slice(self.alloc, bytes)?;
        self.at = 0;
        Ok(())
    }

    fn take(&mut self, into: &mut [u8]) -> Result<usize, ShelfStop> {
        let rest = &self.input[self.at..];
        let n = into.len().min(rest.len());
        copy_front(rest, into, n);
        self.at += n;
        Ok(n)
    }

    fn create(&mut self, name: &str) -> Result<(), ShelfStop> {
        self.folder.create(name)?;
        self.input.clear();
        self.at = 0;
        Ok(())
    }

    fn put(&mut self, piece: &[u8]) -> Result<usize, ShelfStop> {
        self.folder.append(piece)?;
        Ok(piece.len())
    }
}
