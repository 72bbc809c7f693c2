// Shelves with an input.
use case_files::{fail_at, shelf_with};
use std::alloc::Global;
use std::io;
use tex_shelf::{MemoryShelf, Shelf};

/// A shelf that has this file open and moves at most `most` bytes per call. The call with the
/// number `failing` fails, from 1; none for 0, and the first call opened the file.
pub fn opened(alloc: Global, file: &[u8], most: usize, failing: u32) -> io::Result<MemoryShelf> {
    let mut shelf = shelf_with(alloc, Some(file), most)?;
    fail_at(&mut shelf, failing)?;
    match shelf.open("in") {
        Ok(()) => Ok(shelf),
        Err(_) => Err(io::Error::from(io::ErrorKind::Other)),
    }
}
