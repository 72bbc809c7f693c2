// Files in memory.
use std::alloc::Global;
use std::io;
use tex_shelf::{MemoryShelf, NoMemory};

// The result of a shelf, as a result for a row.
fn kept(answer: Result<(), NoMemory>) -> io::Result<()> {
    match answer {
        Ok(()) => Ok(()),
        Err(_) => Err(io::Error::from(io::ErrorKind::OutOfMemory)),
    }
}

/// Adds a file to a shelf, or puts it instead of one.
///
/// # Errors
///
/// Out of memory.
pub fn add_file(shelf: &mut MemoryShelf, name: &str, file: &[u8]) -> io::Result<()> {
    kept(shelf.add_file(name, file))
}

/// Lets the call of this number fail, from 1; none has the number 0.
///
/// # Errors
///
/// Out of memory.
pub fn fail_at(shelf: &mut MemoryShelf, call: u32) -> io::Result<()> {
    kept(shelf.fail_at(call))
}

/// A shelf with the file `in`, if there is one, that moves at most `most` bytes per call.
///
/// # Errors
///
/// Out of memory.
pub fn shelf_with(alloc: Global, file: Option<&[u8]>, most: usize) -> io::Result<MemoryShelf> {
    let mut shelf = MemoryShelf::new(alloc);
    if let Some(file) = file {
        add_file(&mut shelf, "in", file)?;
    }
    shelf.bite(most);
    Ok(shelf)
}
