// The length that headers give, and the reports to a watcher while pieces of a file are put.
ghost use Rattle.std.specs.Prelude.{◌<◌, IsSome};

use std::alloc::Global;
use std::fmt::Write;
use std::process::Abort;
use std::test::Fail;
use tex_shelf::{MemoryShelf, Shelf, ShelfStop, SteadyShelf};
use watched_shelf::{WatchedShelf, Watcher, length_in};

static IDENTIFIER: [u8; 12] = [
    0xAB, 0x4B, 0x54, 0x58, 0x20, 0x31, 0x31, 0xBB, 0x0D, 0x0A, 0x1A, 0x0A,
];

// Whether the high byte comes first, the words from glType on, and the length, worked out by hand.
static LENGTHS: [(bool, [u32; 12], Option<u64>); 13] = [
    // 64 + 28 + (4 + 16)
    (
        false,
        [0, 1, 0, 0x93B0, 0x1908, 4, 4, 0, 0, 1, 1, 28],
        Some(112),
    ),
    // no keys
    (
        true,
        [0, 1, 0, 0x93B0, 0x1908, 4, 4, 0, 0, 1, 1, 0],
        Some(84),
    ),
    // no levels are one
    (
        false,
        [0, 1, 0, 0x93B0, 0x1908, 4, 4, 0, 0, 1, 0, 40],
        Some(124),
    ),
    // the most keys
    (
        false,
        [0, 1, 0, 0x93B0, 0x1908, 4, 4, 0, 0, 1, 1, 1048576],
        Some(1048660),
    ),
    // a cube: 64 + 28 + 3 * 4 + 6 * 16 * (9 + 4 + 1)
    (
        false,
        [0, 1, 0, 0x93B2, 0x1908, 12, 12, 0, 0, 6, 3, 28],
        Some(1448),
    ),
    // an array: 64 + 2 * 4 + 3 * 16 * (6 + 1)
    (
        true,
        [0, 1, 0, 0x93B4, 0x1908, 13, 7, 0, 3, 1, 2, 0],
        Some(408),
    ),
    // an array of cubes: 64 + 28 + 4 + 12 * 16 * 4
    (
        false,
        [0, 1, 0, 0x93D0, 0x1908, 8, 8, 0, 2, 6, 1, 28],
        Some(864),
    ),
    // 64 + 28 + 14 * 4 + 16 * 311756: 683 * 342 blocks, 342 * 171, 171 * 86, 86 * 43, 43 * 22, 22 *
    // 11, 11 * 6, 6 * 3, 3 * 2, 2, and four of 1
    (
        false,
        [0, 1, 0, 0x93DD, 0x1908, 8192, 4096, 0, 0, 1, 14, 28],
        Some(4988244),
    ),
    // a kind of texel, an unknown format, two faces, too many levels, keys too long
    (
        false,
        [0x1401, 1, 0x1908, 0x8058, 0x1908, 4, 4, 0, 0, 1, 1, 28],
        None,
    ),
    (false, [0, 1, 0, 0x93BE, 0x1908, 4, 4, 0, 0, 1, 1, 28], None),
    (false, [0, 1, 0, 0x93B0, 0x1908, 4, 4, 0, 0, 2, 1, 28], None),
    (false, [0, 1, 0, 0x93B0, 0x1908, 4, 4, 0, 0, 1, 4, 28], None),
    (
        false,
        [0, 1, 0, 0x93B0, 0x1908, 4, 4, 0, 0, 1, 1, 1048577],
        None,
    ),
];

fn header(is_big: bool, words: &[u32; 12]) -> [u8; 64] {
    let mut bytes = [0; 64];
    bytes[..12].copy_from_slice(&IDENTIFIER);
    let order: u32 = 0x0403_0201;
    for k in 0..13usize {
        let word = if k == 0 { order } else { words[k - 1] };
        let four = if is_big {
            word.to_be_bytes()
        } else {
            word.to_le_bytes()
        };
        bytes[12 + 4 * k..16 + 4 * k].copy_from_slice(&four);
    }
    bytes
}

fn length_told(front: &[u8]) -> Option<u64> {
    if front.len() > 64 {
        return None;
    }
    length_in(front)
}

// The length that a header gives, whole and without its last byte.
fn lengths(is_big: bool, words: &[u32; 12]) -> (Option<u64>, Option<u64>) {
    let front = header(is_big, words);
    match front.split_last() {
        Some((_, rest)) => (length_told(&front), length_told(rest)),
        None => (None, None),
    }
}

#[test]
fn headers_tell_lengths(rt: HostRuntime) {
    for (is_big, words, wanted) in &LENGTHS {
        assert_eq!(rt; lengths(*is_big, words), (*wanted, None), "{words:?}");
    }
}

// The reports, in order.
#[derive(Drop)]
struct Notebook {
    text: String,
}

impl Watcher for Notebook {
    fn tell(&mut self, stands: u64, whole: Option<u64>) {
        let _ = write!(self.text, "{stands} of {whole:?}, ");
    }

    fn finish(&mut self, stands: u64, whole: Option<u64>) {
        let _ = write!(self.text, "{stands} of {whole:?}.");
    }
}

fn empty_notebook(alloc: Global) -> Notebook {
    Notebook {
        text: String::new(alloc),
    }
}

// Puts a file in pieces of one size, each of them once.
fn put_pieces<S: Shelf>(shelf: &mut S, file: &[u8], size: usize) -> Result<(), ShelfStop>
    requires target { IsSome (S.target shelf.old) }
    requires size { 0 < size }
{
    for piece in file.chunks(size) {
        shelf.put(piece)?;
    }
    Ok(())
}

// The file of one block, 112 bytes, of which a watcher needs no more than the header to be right.
fn file(alloc: Global) -> Result<Vec<u8>, Fail> {
    let (is_big, words, _) = LENGTHS[0];
    let mut file = Vec::from_slice(alloc, &header(is_big, &words))?;
    file.resize(112, 7)?;
    Ok(file)
}

#[test]
fn pieces_are_told_and_put(rt: HostRuntime) -> Result<(), Fail> {
    let file = file(rt.alloc())?;
    for (size, wanted) in [
        (112, "112 of Some(112), 112 of Some(112)."),
        (64, "64 of Some(112), 112 of Some(112), 112 of Some(112)."),
        (63, "63 of None, 112 of Some(112), 112 of Some(112)."),
        (
            30,
            "30 of None, 60 of None, 90 of Some(112), 112 of Some(112), 112 of Some(112).",
        ),
    ] {
        let inner = SteadyShelf::new(rt.alloc());
        let mut shelf = WatchedShelf::new(inner, empty_notebook(rt.alloc()));
        shelf.create("file").expect(&rt, "create");
        put_pieces(&mut shelf, &file, size).expect(&rt, "put");
        shelf.finish();
        let (inner, told) = shelf.into_parts();
        assert_eq!(rt; told.text.as_str(), wanted, "size {size}");
        assert!(rt; inner.file("file") == Some(file.as_slice()), "size {size}");
    }
    Ok(())
}

// A shelf that moves ten bytes per call, and one whose third call fails: the put bytes are
// reported, and no more.
#[test]
fn what_was_not_put_is_not_told(rt: HostRuntime) -> Result<(), Fail> {
    let file = file(rt.alloc())?;
    for (most, failing, wanted) in [
        (
            10,
            9,
            "10 of None, 20 of None, 30 of None, 40 of None, 40 of None.",
        ),
        (112, 3, "30 of None, 30 of None."),
    ] {
        let mut inner = MemoryShelf::new(rt.alloc());
        inner.bite(most);
        inner.fail_at(failing).expect(&rt, "fail_at");
        let mut shelf = WatchedShelf::new(inner, empty_notebook(rt.alloc()));
        shelf.create("file").expect(&rt, "create");
        let _ = put_pieces(&mut shelf, &file, 30);
        shelf.finish();
        let (_, told) = shelf.into_parts();
        assert_eq!(rt; told.text.as_str(), wanted);
    }
    Ok(())
}

// A file that is created again begins with no bytes, and one that is not a KTX file has no length.
#[test]
fn each_output_is_told_for_itself(rt: HostRuntime) -> Result<(), Fail> {
    let file = file(rt.alloc())?;
    let inner = SteadyShelf::new(rt.alloc());
    let mut shelf = WatchedShelf::new(inner, Some(empty_notebook(rt.alloc())));
    shelf.create("first").expect(&rt, "create");
    put_pieces(&mut shelf, &file, 64).expect(&rt, "put");
    shelf.create("second").expect(&rt, "create");
    put_pieces(&mut shelf, &[80; 100], 90).expect(&rt, "put");
    let (_, told) = shelf.into_parts();
    let told = told.ok_or("nobody was told")?;
    let wanted = "64 of Some(112), 112 of Some(112), 90 of None, 100 of None, ";
    assert_eq!(rt; told.text.as_str(), wanted);
    Ok(())
}
