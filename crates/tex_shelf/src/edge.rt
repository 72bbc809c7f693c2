// Reading, writing and failing, as the shelf of real files and the report on standard output do.
ghost use Rattle.std.specs.Prelude.{◌≡◌, ◌<◌, ◌≤◌, ◌↔◌, length, drop, IfOk};
ghost use Rattle.std.specs.Io.KnownBytes.{ReadConsumes, WriteAppends};
ghost use Rattle.std.specs.IoError.{error_kind};
ghost use Rattle.tex_shelf.specs.Faults.{Rose};

use crate::ShelfStop;
use std::io;
use std::io::{ErrorKind, Read, Write};

// Reads what comes first, and goes on after an interruption.
fn read_some<F: Read>(file: &mut F, into: &mut [u8]) -> io::Result<usize>
    ensures within { IfOk result (λ n. n ≤ length into.old) }
    ensures bytes { ReadConsumes (F.remaining file.old) (F.remaining file.new) result into.new }
{
    for _ in 0..u64::MAX {
        match file.read(into) {
            Err(error) if error.kind() == ErrorKind::Interrupted => {}
            done => return done,
        }
    }
    Err(io::Error::from(ErrorKind::Interrupted))
}

/// Reads through a buffer, so that the bytes of `into` after the read ones stay unchanged.
///
/// # Errors
///
/// The fault of the file; after an interruption, the call reads again instead.
pub fn read_through<F: Read>(file: &mut F, buffer: &mut [u8], into: &mut [u8]) -> io::Result<usize>
    requires { 0 < length buffer.old }
    ensures within { IfOk result (λ n. n ≤ length into.old) }
    ensures bytes { ReadConsumes (F.remaining file.old) (F.remaining file.new) result into.new }
    ensures places { IfOk result (λ n. drop n into.new ≡ drop n into.old) }
{
    let most = into.len().min(buffer.len());
    let n = read_some(file, &mut buffer[..most])?;
    into[..n].copy_from_slice(&buffer[..n]);
    Ok(n)
}

/// Writes at least one byte of a piece that has one, and continues after an interruption.
///
/// # Errors
///
/// The fault of the file; `WriteZero` if the file takes no byte.
pub fn write_some<F: Write>(file: &mut F, piece: &[u8]) -> io::Result<usize>
    ensures within { IfOk result (λ n. n ≤ length piece.now) }
    ensures some { IfOk result (λ n. 0 < length piece.now → 0 < n) }
    ensures bytes { WriteAppends (F.contents file.old) (F.contents file.new) result piece.now }
{
    if piece.is_empty() {
        return Ok(0);
    }
    for _ in 0..u64::MAX {
        match file.write(piece) {
            Ok(0) => return Err(io::Error::from(ErrorKind::WriteZero)),
            Err(error) if error.kind() == ErrorKind::Interrupted => {}
            done => return done,
        }
    }
    Err(io::Error::from(ErrorKind::Interrupted))
}

/// Writes the whole piece, and continues after an interruption.
///
/// # Errors
///
/// The fault of the outside; `WriteZero` if it takes no byte. A prefix of the piece may then be
/// written.
pub fn print_whole<R: Print>(rt: &R, piece: &[u8]) -> io::Result<()> {
    let mut done = 0;
    for _ in 0..u64::MAX {
        if done == piece.len() {
            return Ok(());
        }
        match rt.write_some(&piece[done..]) {
            Ok(0) => return Err(io::Error::from(ErrorKind::WriteZero)),
            Ok(n) => done += n,
            Err(error) if error.kind() == ErrorKind::Interrupted => {}
            Err(error) => return Err(error),
        }
    }
    Err(io::Error::from(ErrorKind::Interrupted))
}

/// The stop for an error, which is counted unless it is out of memory.
pub fn stop_at(error: &io::Error, faults: &mut u64) -> ShelfStop
    ensures later { faults.old ≤ faults.new }
    ensures failed { result ≡ ShelfStop.Failed → Rose faults.old faults.new }
    ensures no_memory { result ≡ ShelfStop.NoMemory → faults.new ≡ faults.old }
    ensures out_of_memory { (result ≡ ShelfStop.NoMemory) ↔ (error_kind error.now
        ≡ ErrorKind.OutOfMemory) }
{
    if error.kind() == ErrorKind::OutOfMemory {
        return ShelfStop::NoMemory;
    }
    *faults = faults.saturating_add(1);
    ShelfStop::Failed
}
