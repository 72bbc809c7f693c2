// The files of a shelf in memory.
ghost use Rattle.std.specs.Prelude.{◌≡◌, ◌↔◌, [], ◌∷◌, ◌++◌, List, Some, None, Option, IsTrue, IfOk, OnOk, OnErr, option_copied, string_bytes};
ghost use Rattle.std.specs.FinMap.{empty, insert};
ghost use Rattle.tex_shelf.specs.Files.{file_at, appended};

use crate::NoMemory;
use std::alloc::Global;
use std::collections::VecDeque;
use std::marker::Model;

/// A file: its name and its bytes.
#[derive(Drop)]
struct Entry {
    name: String,
    bytes: Vec<u8>,
}

impl Entry {
    fn is_named(&self, name: &str) -> bool
        ensures { IsTrue result ↔ (name.now ≡ string_bytes self.now.name) }
    {
        self.name.as_str() == name
    }
}

/// Files by name, one of which grows.
#[derive(Drop)]
pub struct Folder {
    alloc: Global,
    /// The file that grows.
    target: Option<Entry>,
    /// The other files, the newest first. For files with equal names, the newest counts.
    log: VecDeque<Entry>,
}

impl Model for Folder {
    ghost use Rattle.tex_shelf.specs.States.{FolderState, folder_code};

    ghost Value = { FolderState };

    ghost coded = { folder_code };

    ghost use Rattle.tex_shelf.specs.Log.{kept, target_name};

    ghost view = { λ f. record {
      files = kept f.target f.log.items;
      target = target_name f.target;
    } };
}

impl Folder {
    /// No file, and no target.
    pub fn new(alloc: Global) -> Self
        ensures { result ≡ record { files = empty; target = None } }
    {
        Folder {
            alloc,
            target: None,
            log: VecDeque::new(alloc),
        }
    }

    /// The bytes of the file of this name.
    pub fn file(&self, name: &str) -> Option<&[u8]>
        ensures { option_copied result ≡ file_at self.now.files name.now }
    {
        match &self.target {
            Some(entry) if entry.is_named(name) => Some(entry.bytes.as_slice()),
            _ => find(&self.log, name),
        }
    }

    /// Sets the file of this name, and keeps the target.
    ///
    /// # Errors
    ///
    /// Out of memory. Then nothing has changed.
    pub fn set(&mut self, name: &str, bytes: &[u8]) -> Result<(), NoMemory>
        ensures ok { OnOk result
            (self.new ≡ record self.old { files = insert self.old.files name.now bytes.now }) }
        ensures err { OnErr result (self.new ≡ self.old) }
    {
        let entry = Entry {
            name: String::from_str(self.alloc, name)?,
            bytes: Vec::from_slice(self.alloc, bytes)?,
        };
        place(&mut self.target, &mut self.log, entry)
    }

    /// Makes the file of this name empty, and makes it the target.
    ///
    /// # Errors
    ///
    /// Out of memory. Then nothing has changed.
    pub fn create(&mut self, name: &str) -> Result<(), NoMemory>
        ensures ok { OnOk result (self.new ≡ record {
          files = insert self.old.files name.now [];
          target = Some name.now;
        }) }
        ensures err { OnErr result (self.new ≡ self.old) }
    {
        let entry = Entry {
            name: String::from_str(self.alloc, name)?,
            bytes: Vec::new(self.alloc),
        };
        retarget(&mut self.target, &mut self.log, entry)
    }

    /// Appends to the target. Without a target nothing changes.
    ///
    /// # Errors
    ///
    /// Out of memory. Then nothing has changed.
    pub fn append(&mut self, piece: &[u8]) -> Result<(), NoMemory>
        ensures ok { OnOk result
            (self.new ≡ record self.old {
              files = appended self.old.files self.old.target
                  piece.now;
            }) }
        ensures err { OnErr result (self.new ≡ self.old) }
    {
        extend(&mut self.target, piece)
    }
}

ghost use Rattle.tex_shelf.specs.declared.folder.Entry.{Entry};
ghost use Rattle.tex_shelf.specs.Log.{filed, kept, target_name};

fn find<'a>(log: &'a VecDeque<Entry>, name: &str) -> Option<&'a [u8]>
    ensures { option_copied result ≡ file_at (filed log.now.items) name.now }
{
    for entry in log {
        if entry.is_named(name) {
            return Some(entry.bytes.as_slice());
        }
    }
    None
}

// Puts a file in the place of the target, if it has the target's name, and else into the log.
fn place(
    target: &mut Option<Entry>,
    log: &mut VecDeque<Entry>,
    entry: Entry,
) -> Result<(), NoMemory>
    ensures name { target_name target.new ≡ target_name target.old }
    ensures ok { OnOk result (kept target.new log.new.items ≡ insert (kept target.old log.old.items)
        (string_bytes entry.name) entry.bytes.items) }
    ensures err { OnErr result (kept target.new log.new.items ≡ kept target.old log.old.items) }
{
    match target {
        Some(current) if current.is_named(entry.name.as_str()) => *current = entry,
        _ => log.push_front(entry)?,
    }
    Ok(())
}

// Makes a file the target. The target so far goes to the log.
fn retarget(
    target: &mut Option<Entry>,
    log: &mut VecDeque<Entry>,
    entry: Entry,
) -> Result<(), NoMemory>
    ensures target { OnOk result (target.new ≡ Some entry) }
    ensures log { OnOk result (filed log.new.items ≡ kept target.old log.old.items) }
    ensures same_target { OnErr result (target.new ≡ target.old) }
    ensures same_log { OnErr result (log.new.items ≡ log.old.items) }
{
    if let Some(previous) = target.take() {
        if let Err(full) = log.push_front(previous) {
            *target = Some(full.value);
            return Err(NoMemory);
        }
    }
    *target = Some(entry);
    Ok(())
}

fn extend(target: &mut Option<Entry>, piece: &[u8]) -> Result<(), NoMemory>
    ensures name { target_name target.new ≡ target_name target.old }
    ensures ok { OnOk result ((log : List Entry) → kept target.new log
        ≡ appended (kept target.old log) (target_name target.old) piece.now) }
    ensures err { OnErr result ((log : List Entry) → kept target.new log ≡ kept target.old log) }
{
    if let Some(entry) = target {
        entry.bytes.extend_from_slice(piece)?;
    }
    Ok(())
}
