// Pieces of one size, taken from the opened input of a shelf.
ghost use Rattle.std.specs.Prelude.{◌≡◌, ◌≤◌, ◌<◌, ◌+◌, ◌*◌, ◌++◌, ◌^◌, ℕ, List, [], Some, Ok, cond, length, IfOk, OnOk, IsErrOf};
ghost use Rattle.tex_shelf.specs.Faults.{Rose};
ghost use Rattle.tex_shelf.specs.Files.{emptied};
ghost use Rattle.tex_shelf.specs.Frames.{OnlyReads};
ghost use Rattle.tex_shelf.specs.Pieces.{ArePieces, pieces_at, pieces_of};
ghost use Rattle.tex_shelf.specs.Stops.{Answers};
ghost use Rattle.tex_shelf.specs.Taking.{IsTaken};

use crate::{Shelf, ShelfStop, Stop, take_full};
use std::alloc::{AllocError, Global};

// The most bytes that are taken at once.
const MOST: usize = 8192;

// The most pieces that are taken at once, whose bytes `MOST` has room for.
const STEP: usize = 256;

/// The reason why an input is not a list of this number of pieces.
#[derive(Clone, Copy, Debug, PartialEq, Eq)]
pub enum PieceFault {
    /// The file ends after this number of bytes, before the end of the last piece.
    ShortData(u64),
    /// A byte follows the last piece.
    TrailingBytes,
}

/// Skips the next bytes and returns their number: fewer than requested only at the end of the
/// input.
///
/// # Errors
///
/// `Failed` if `read_faults` rose, and `NoMemory`.
pub fn skip<S: Shelf>(shelf: &mut S, wanted: usize) -> Result<usize, ShelfStop>
    ensures taken { IfOk result (λ n. (bytes : List ℕ) × IsTaken wanted n bytes (S.left shelf.old)
        (S.left shelf.new)) }
    ensures failed { IsErrOf result ShelfStop.Failed → Rose (S.read_faults shelf.old)
        (S.read_faults shelf.new) }
    ensures rest { OnlyReads S.Shelf shelf.old shelf.new }
{
    let mut piece = [0; MOST];
    let mut done = 0;
    while done < wanted {
        let step = (wanted - done).min(MOST);
        let taken = take_full(shelf, &mut piece[..step])?;
        if taken < step {
            return Ok(done + taken);
        }
        done += step;
    }
    Ok(wanted)
}

/// Whether the input is at its end. If it is not, the call takes a byte.
///
/// # Errors
///
/// `Failed` if `read_faults` rose, and `NoMemory`.
pub fn is_at_end<S: Shelf>(shelf: &mut S) -> Result<bool, ShelfStop>
    ensures taken { IfOk result (λ ended. (bytes : List ℕ) × IsTaken 1 (cond ended 0 1) bytes
        (S.left shelf.old) (S.left shelf.new)) }
    ensures failed { IsErrOf result ShelfStop.Failed → Rose (S.read_faults shelf.old)
        (S.read_faults shelf.new) }
    ensures rest { OnlyReads S.Shelf shelf.old shelf.new }
{
    match take_full(shelf, &mut [0])? {
        0 => Ok(true),
        _ => Ok(false),
    }
}

// Appends pieces to those that are there.
fn push_pieces<const N: usize>(
    pieces: &mut Vec<[u8; N]>,
    count: usize,
    bytes: &[u8],
) -> Result<(), AllocError>
    requires { length bytes.now ≡ N * count }
    ensures { OnOk result (pieces.new.items ≡ pieces.old.items ++ pieces_at N count bytes.now) }
{
    let mut rest = bytes;
    for _ in 0..count {
        let (front, behind) = rest.split_at(N);
        let mut piece = [0; N];
        piece.copy_from_slice(front);
        pieces.push(piece)?;
        rest = behind;
    }
    Ok(())
}

// Fills a buffer of whole pieces, and appends them to those that are there.
fn take_step<S: Shelf, const N: usize>(
    shelf: &mut S,
    buffer: &mut [u8],
    pieces: &mut Vec<[u8; N]>,
    count: usize,
) -> Result<usize, ShelfStop>
    requires { length buffer.old ≡ N * count }
    ensures taken { IfOk result (λ n. (bytes : List ℕ)
        × IsTaken (N * count) n bytes (S.left shelf.old) (S.left shelf.new)
        × (n ≡ N * count → pieces.new.items ≡ pieces.old.items ++ pieces_at N count bytes)) }
    ensures failed { IsErrOf result ShelfStop.Failed → Rose (S.read_faults shelf.old)
        (S.read_faults shelf.new) }
    ensures rest { OnlyReads S.Shelf shelf.old shelf.new }
{
    let taken = take_full(shelf, buffer)?;
    if taken == buffer.len() {
        push_pieces(pieces, count, buffer)?;
    }
    Ok(taken)
}

/// Takes pieces of `N` bytes, appends them to those that are there, and returns the number of
/// bytes: fewer than requested only at the end of the input. Memory grows as the bytes arrive.
///
/// # Errors
///
/// `Failed` if `read_faults` rose, and `NoMemory`.
pub fn take_pieces<S: Shelf, const N: usize>(
    shelf: &mut S,
    pieces: &mut Vec<[u8; N]>,
    count: usize,
) -> Result<usize, ShelfStop>
    requires small { N ≤ 32 }
    requires few { count < 2 ^ 32 }
    ensures taken { IfOk result (λ n. (bytes : List ℕ)
        × IsTaken (N * count) n bytes (S.left shelf.old) (S.left shelf.new)
        × (n ≡ N * count → pieces.new.items ≡ pieces.old.items ++ pieces_at N count bytes)) }
    ensures failed { IsErrOf result ShelfStop.Failed → Rose (S.read_faults shelf.old)
        (S.read_faults shelf.new) }
    ensures rest { OnlyReads S.Shelf shelf.old shelf.new }
{
    let mut buffer = [0; MOST];
    let mut done = 0;
    while done < count {
        let step = (count - done).min(STEP);
        let taken = take_step(shelf, &mut buffer[..N * step], pieces, step)?;
        if taken < N * step {
            return Ok(N * done + taken);
        }
        done += step;
    }
    Ok(N * count)
}

/// Reads the rest of the input as `count` pieces of `N` bytes, which follow this number of bytes of
/// the file. Memory grows as the bytes arrive.
///
/// # Errors
///
/// `Fault` if the input has fewer or more bytes; `ReadFault` if a read failed; `NoMemory`.
pub fn read_pieces<S: Shelf, const N: usize>(
    alloc: Global,
    shelf: &mut S,
    count: usize,
    before: u64,
) -> Result<Vec<[u8; N]>, Stop<PieceFault>>
    requires small { N ≤ 32 }
    requires few { count < 2 ^ 32 }
    requires before { before < 2 ^ 62 }
    ensures reads { (input : List ℕ) → S.left shelf.old ≡ Some input
        → Answers (λ pieces. pieces_of N count before input ≡ Ok pieces.items)
        (pieces_of N count before input) (S.left shelf.new) [] result }
    ensures full { IfOk result (λ pieces. ArePieces N count pieces.items) }
    ensures ended { OnOk result (S.left shelf.new ≡ emptied (S.left shelf.new)) }
    ensures read_fault { IsErrOf result Stop.ReadFault → Rose (S.read_faults shelf.old)
        (S.read_faults shelf.new) }
    ensures rest { OnlyReads S.Shelf shelf.old shelf.new }
{
    let mut pieces = Vec::new(alloc);
    let taken = take_pieces(shelf, &mut pieces, count)?;
    if taken < N * count {
        return Err(Stop::Fault(PieceFault::ShortData(before + taken as u64)));
    }
    if !is_at_end(shelf)? {
        return Err(Stop::Fault(PieceFault::TrailingBytes));
    }
    Ok(pieces)
}
