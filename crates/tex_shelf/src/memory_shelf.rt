// A shelf in memory, for tests and for work that is thrown away.
ghost use Rattle.std.specs.Prelude.{◌≡◌, ◌<◌, ◌≤◌, ◌↔◌, ◌⊎◌, [], ◌∷◌, ◌++◌, min, max, length, take, drop, Some, None, IfOk, OnOk, OnErr, IsErrOf, IsSome, Contains, option_copied, refl};
ghost use Rattle.std.specs.FinMap.{empty, insert};
ghost use Rattle.tex_shelf.specs.Faults.{raised, Counts};
ghost use Rattle.tex_shelf.specs.Files.{file_at, with_front};
ghost use Rattle.tex_shelf.specs.States.{opened, taken, created, extended, read_failed, write_failed};

use crate::buffer::copy_front;
use crate::failures::Failures;
use crate::folder::Folder;
use crate::{NoMemory, Shelf, ShelfStop};
use std::alloc::Global;
use std::marker::Model;

/// A shelf that keeps its files, and fails at chosen calls, and if a missing file is opened.
#[derive(Drop)]
pub struct MemoryShelf {
    alloc: Global,
    folder: Folder,
    /// A copy of the opened file; the bytes before `taken` were taken.
    input: Vec<u8>,
    at: usize,
    read_faults: u64,
    write_faults: u64,
    failures: Failures,
    /// The most bytes that a call moves, at least 1.
    most: usize,
}

impl Model for MemoryShelf {
    ghost use Rattle.std.specs.Prelude.{◌≤◌, drop, length};
    ghost use Rattle.tex_shelf.specs.States.{ShelfState, shelf_code};

    ghost Value = { ShelfState };

    ghost coded = { shelf_code };

    ghost view = { λ s. record {
      files = s.folder.files;
      left = drop s.at s.input.items;
      target = s.folder.target;
      read_faults = s.read_faults;
      write_faults = s.write_faults;
      calls = s.failures.calls;
      failing = s.failures.listed.items;
      most = s.most;
    } };

    ghost invariant = { λ s. (s.at ≤ length s.input.items) × (1 ≤ s.most) };
}

impl MemoryShelf {
    /// A shelf with no files and nothing opened, so that nothing is left. Each call moves as much
    /// as it can.
    pub fn new(alloc: Global) -> Self
        ensures { result ≡ record {
          files = empty;
          left = [];
          target = None;
          read_faults = 0;
          write_faults = 0;
          calls = 0;
          failing = [];
          most = usize.MAX;
        } }
    {
        MemoryShelf {
            alloc,
            folder: Folder::new(alloc),
            input: Vec::new(alloc),
            at: 0,
            read_faults: 0,
            write_faults: 0,
            failures: Failures::new(alloc),
            most: usize::MAX,
        }
    }

    /// Sets a file, instead of one of its name.
    ///
    /// # Errors
    ///
    /// `NoMemory`, and then nothing has changed.
    pub fn add_file(&mut self, name: &str, bytes: &[u8]) -> Result<(), NoMemory>
        ensures ok { OnOk result
            (self.new ≡ record self.old { files = insert self.old.files name.now bytes.now }) }
        ensures err { OnErr result (self.new ≡ self.old) }
    {
        self.folder.set(name, bytes)
    }

    /// Makes the call of this number fail. Calls of [`Shelf`] are numbered from 1.
    ///
    /// # Errors
    ///
    /// `NoMemory`, and then nothing has changed.
    pub fn fail_at(&mut self, call: u32) -> Result<(), NoMemory>
        ensures ok { OnOk result
            (self.new ≡ record self.old { failing = self.old.failing ++ call ∷ [] }) }
        ensures err { OnErr result (self.new ≡ self.old) }
    {
        self.failures.add(call)
    }

    /// Limits each `take` and `put` to `most` bytes, and at least to 1.
    pub fn bite(&mut self, most: usize)
        ensures { self.new ≡ record self.old { most = max most 1 } }
    {
        self.most = most.max(1);
    }

    /// The bytes of a file, or `None` if there is no file with this name.
    pub fn file(&self, name: &str) -> Option<&[u8]>
        ensures { option_copied result ≡ file_at self.now.files name.now }
    {
        self.folder.file(name)
    }

    /// The number of times that an `open` or a `take` failed.
    pub fn read_faults(&self) -> u64
        ensures { result ≡ self.now.read_faults }
    {
        self.read_faults
    }

    /// The number of times that a `create` or a `put` failed.
    pub fn write_faults(&self) -> u64
        ensures { result ≡ self.now.write_faults }
    {
        self.write_faults
    }

    fn count(&mut self)
        ensures { self.new ≡ record self.old { calls = raised self.old.calls } }
    {
        self.failures.calls = self.failures.calls.saturating_add(1);
    }

    fn fail_to_read(&mut self) -> ShelfStop
        ensures stop { result ≡ ShelfStop.Failed }
        ensures counted { self.new ≡ read_failed self.old }
        ensures later { self.old.read_faults ≤ self.new.read_faults }
    {
        self.read_faults = self.read_faults.saturating_add(1);
        self.count();
        ShelfStop::Failed
    }

    fn fail_to_write(&mut self) -> ShelfStop
        ensures stop { result ≡ ShelfStop.Failed }
        ensures counted { self.new ≡ write_failed self.old }
        ensures later { self.old.write_faults ≤ self.new.write_faults }
    {
        self.write_faults = self.write_faults.saturating_add(1);
        self.count();
        ShelfStop::Failed
    }
}

impl Shelf for MemoryShelf {
    ghost files = { λ s. Some s.files };

    ghost left = { λ s. Some s.left };

    ghost target = { λ s. s.target };

    ghost read_faults = { λ s. s.read_faults };

    ghost write_faults = { λ s. s.write_faults };

    ghost can_open = { λ s name. Unit {0} };

    ghost can_create = { λ s name. Unit {0} };

    ghost tells_left = { λ s told. refl };

    /// `Failed` is the result exactly at the calls that `fail_at` named, and if there is no file
    /// with this name.
    fn open(&mut self, name: &str) -> Result<(), ShelfStop>
        ensures failed { IsErrOf result ShelfStop.Failed ↔
            (Contains self.old.failing (raised self.old.calls)
            ⊎ (file_at self.old.files name.now ≡ None)) }
        ensures ok { OnOk result (file_at self.old.files name.now ≡ Some self.new.left) }
        ensures new { OnOk result (self.new ≡ opened self.old self.new.left) }
        ensures counted { IsErrOf result ShelfStop.Failed → self.new ≡ read_failed self.old }
        ensures unchanged { IsErrOf result ShelfStop.NoMemory → self.new ≡ self.old }
        ensures counts { Counts self.old.read_faults self.new.read_faults self.old.write_faults
            self.new.write_faults result }
    {
        if self.failures.are_due() {
            return Err(self.fail_to_read());
        }
        let Some(bytes) = self.folder.file(name) else {
            return Err(self.fail_to_read());
        };
        self.input = Vec::from_slice(self.alloc, bytes)?;
        self.at = 0;
        self.count();
        Ok(())
    }

    /// Moves as many bytes as `bite` allows, `into` holds and the input has left. `Failed` is the
    /// result exactly at the calls that `fail_at` named.
    fn take(&mut self, into: &mut [u8]) -> Result<usize, ShelfStop>
        ensures failed { IsErrOf result ShelfStop.Failed ↔ Contains self.old.failing
            (raised self.old.calls) }
        ensures amount { IfOk result
            (λ n. n ≡ min self.old.most (min (length into.old) (length self.old.left))) }
        ensures bytes { IfOk result (λ n. self.old.left ≡ take n into.new ++ self.new.left) }
        ensures places { IfOk result (λ n. drop n into.new ≡ drop n into.old) }
        ensures within { IfOk result (λ n. n ≤ length into.old) }
        ensures ended { IfOk result (λ n. 0 < length into.old → n ≡ 0 → self.old.left ≡ []) }
        ensures ok { IfOk result (λ n. self.new ≡ taken self.old n) }
        ensures counted { IsErrOf result ShelfStop.Failed → self.new ≡ read_failed self.old }
        ensures needs_no_memory { IsErrOf result ShelfStop.NoMemory → ⊥ }
        ensures counts { Counts self.old.read_faults self.new.read_faults self.old.write_faults
            self.new.write_faults result }
    {
        if self.failures.are_due() {
            return Err(self.fail_to_read());
        }
        let rest = &self.input[self.at..];
        let n = self.most.min(into.len().min(rest.len()));
        copy_front(rest, into, n);
        self.at += n;
        self.count();
        Ok(n)
    }

    /// `Failed` is the result exactly at the calls that `fail_at` named.
    fn create(&mut self, name: &str) -> Result<(), ShelfStop>
        ensures failed { IsErrOf result ShelfStop.Failed ↔ Contains self.old.failing
            (raised self.old.calls) }
        ensures ok { OnOk result (self.new ≡ created self.old name.now) }
        ensures counted { IsErrOf result ShelfStop.Failed → self.new ≡ write_failed self.old }
        ensures unchanged { IsErrOf result ShelfStop.NoMemory → self.new ≡ self.old }
        ensures counts { Counts self.old.write_faults self.new.write_faults self.old.read_faults
            self.new.read_faults result }
    {
        if self.failures.are_due() {
            return Err(self.fail_to_write());
        }
        self.folder.create(name)?;
        self.input.clear();
        self.at = 0;
        self.count();
        Ok(())
    }

    /// Appends as many bytes as `bite` allows and the piece has. `Failed` is the result exactly at
    /// the calls that `fail_at` named.
    fn put(&mut self, piece: &[u8]) -> Result<usize, ShelfStop>
        requires { IsSome self.old.target }
        ensures failed { IsErrOf result ShelfStop.Failed ↔ Contains self.old.failing
            (raised self.old.calls) }
        ensures amount { IfOk result (λ n. n ≡ min self.old.most (length piece.now)) }
        ensures within { IfOk result (λ n. n ≤ length piece.now) }
        ensures some { IfOk result (λ n. 0 < length piece.now → 0 < n) }
        ensures ok { IfOk result (λ n. self.new ≡ extended self.old (take n piece.now)) }
        ensures counted { IsErrOf result ShelfStop.Failed → self.new ≡ write_failed self.old }
        ensures unchanged { IsErrOf result ShelfStop.NoMemory → self.new ≡ self.old }
        ensures counts { Counts self.old.write_faults self.new.write_faults self.old.read_faults
            self.new.read_faults result }
    {
        if self.failures.are_due() {
            return Err(self.fail_to_write());
        }
        let n = self.most.min(piece.len());
        self.folder.append(&piece[..n])?;
        self.count();
        Ok(n)
    }
}
