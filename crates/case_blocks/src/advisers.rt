// Advisers that note all reports.
ghost use Rattle.std.specs.Prelude.{◌≡◌, None, Some, false};

use crate::blocks::told_block;
use crate::sources::source_of;
use adviser_pool::{Adviser, Ask, LastAdviser, Pool, ask_of};
use astc_model::{ChannelWeights, Flavour, Preset};
use case_files::{bad_row, block_of_digits, number};
use std::alloc::{AllocError, Global};
use std::cell::RefCell;
use std::io;
use std::rc::Rc;

/// The adviser's number, the bytes and the error of all blocks that were reported to advisers, in
/// order. The notes live while the pool has the advisers.
pub type Notes = Rc<RefCell<Vec<(u8, [u8; 16], u32)>>>;

/// Notes of nothing.
///
/// # Errors
///
/// Out of memory.
pub fn new_notes(alloc: Global) -> io::Result<Notes> {
    match Rc::new(alloc, RefCell::new(Vec::new(alloc))) {
        Ok(notes) => Ok(notes),
        Err(_) => Err(bad_row()),
    }
}

// Notes the last report. If that fails, the note is missing.
fn note(notes: &Notes, number: u8, bytes: &[u8; 16], error: u32) {
    if let Ok(mut notes) = notes.try_borrow_mut() {
        let _ = notes.push((number, *bytes, error));
    }
}

// A reserved mode, and a void extent of HDR: no blocks.
const ZEROS: [u8; 16] = [0; 16];

const HDR: [u8; 16] = [
    0xFC, 0xFF, 0xFF, 0xFF, 0xFF, 0xFF, 0xFF, 0xFF, 0xFF, 0xFF, 0xFF, 0xFF, 0xFF, 0xFF, 0xFF, 0xFF,
];

// The void extent that shows transparent black.
const CLEAR: [u8; 16] = [
    0xFC, 0xFD, 0xFF, 0xFF, 0xFF, 0xFF, 0xFF, 0xFF, 0, 0, 0, 0, 0, 0, 0, 0,
];

// Two columns of black and two of white, and the other way round.
const BLACK_FIRST: [u8; 16] = [
    0x42, 0, 1, 0xFE, 1, 0xFE, 1, 0xFE, 1, 0, 0, 0, 0x0F, 0x0F, 0x0F, 0x0F,
];

const WHITE_FIRST: [u8; 16] = [
    0x42, 0, 1, 0xFE, 1, 0xFE, 1, 0xFE, 1, 0, 0, 0, 0xF0, 0xF0, 0xF0, 0xF0,
];

// The constants of (10, 20, 30, 255), and of (128, 128, 128, 255), the mean of two halves of black
// and white.
const ONE: [u8; 16] = [
    0xFC, 0xFD, 0xFF, 0xFF, 0xFF, 0xFF, 0xFF, 0xFF, 0x0A, 0x0A, 0x14, 0x14, 0x1E, 0x1E, 0xFF, 0xFF,
];

const GREY: [u8; 16] = [
    0xFC, 0xFD, 0xFF, 0xFF, 0xFF, 0xFF, 0xFF, 0xFF, 0x80, 0x80, 0x80, 0x80, 0x80, 0x80, 0xFF, 0xFF,
];

fn block_of(name: &str) -> [u8; 16] {
    match name {
        "black" => BLACK_FIRST,
        "white" => WHITE_FIRST,
        "clear" => CLEAR,
        "one" => ONE,
        "grey" => GREY,
        "hdr" => HDR,
        "zeros" => ZEROS,
        digits => block_of_digits(digits),
    }
}

fn name_of(block: &[u8; 16]) -> &'static str {
    for name in ["black", "white", "clear", "one", "grey", "zeros"] {
        if block_of(name) == *block {
            return name;
        }
    }
    "another"
}

// The rule for the proposals of an adviser.
#[derive(Drop)]
enum AdviserWay {
    /// As the adviser that repeats.
    Repeats(LastAdviser),
    /// The same block for each ask.
    Always([u8; 16]),
    /// Two halves of black and white, with the colour of the first texel on the left; bytes that
    /// are not a block if that is another colour.
    Looks,
    /// Blocks in their order, and after the last one the block of the last report.
    HandsIn(Vec<[u8; 16]>, usize),
}

// The two halves that begin with a texel.
fn halves_from(texel: [u8; 4]) -> [u8; 16] {
    if texel == [0, 0, 0, 255] {
        BLACK_FIRST
    } else if texel == [255; 4] {
        WHITE_FIRST
    } else {
        ZEROS
    }
}

// The proposal to an ask of an adviser whose last report was this block.
fn proposed(way: &mut AdviserWay, ask: &Ask, last: [u8; 16]) -> [u8; 16] {
    match way {
        AdviserWay::Repeats(adviser) => adviser.propose(ask),
        AdviserWay::Always(block) => *block,
        AdviserWay::Looks => halves_from(ask.texels[0]),
        AdviserWay::HandsIn(blocks, next) => {
            let place = *next;
            *next = place.saturating_add(1);
            blocks.get(place).copied().unwrap_or(last)
        }
    }
}

// Tells the adviser that repeats.
fn tell(way: &mut AdviserWay, bytes: &[u8; 16], error: u32) {
    if let AdviserWay::Repeats(adviser) = way {
        adviser.settled(bytes, error);
    }
}

/// An adviser that notes the reports to it.
#[derive(Drop)]
pub struct Noting {
    asked: u64,
    way: AdviserWay,
    last: [u8; 16],
    sum: u32,
    heard: Option<Ask>,
    number: u8,
    notes: Notes,
}

impl Adviser for Noting {
    ghost state = { λ a. record {
      asked = a.asked;
      last = a.last;
      sum = a.sum;
      echoes = false;
      heard = Some a.heard;
    } };

    ghost offer = { λ a ask. None };

    ghost echo = { λ a ask echoes. Prim.cc };

    fn propose(&mut self, ask: &Ask) -> [u8; 16] {
        self.asked = self.asked.saturating_add(1);
        self.heard = Some(*ask);
        proposed(&mut self.way, ask, self.last)
    }

    fn settled(&mut self, bytes: &[u8; 16], error: u32) {
        note(&self.notes, self.number, bytes, error);
        tell(&mut self.way, bytes, error);
        self.last = *bytes;
        self.sum = error;
    }
}

// One that proposes the last block, the first time two halves of black and white.
fn last_adviser() -> LastAdviser {
    let mut adviser = LastAdviser::new();
    adviser.settled(&BLACK_FIRST, 0);
    adviser
}

// The blocks of these names.
fn blocks_of(alloc: Global, names: &str) -> Result<Vec<[u8; 16]>, AllocError> {
    let mut blocks = Vec::new(alloc);
    for name in names.split(' ') {
        blocks.push(block_of(name))?;
    }
    Ok(blocks)
}

fn way_of(alloc: Global, words: &str) -> Result<AdviserWay, AllocError> {
    match words.strip_prefix("always ") {
        Some(name) => Ok(AdviserWay::Always(block_of(name))),
        None => match words {
            "last" => Ok(AdviserWay::Repeats(last_adviser())),
            "new" => Ok(AdviserWay::Repeats(LastAdviser::new())),
            "looking" => Ok(AdviserWay::Looks),
            names => Ok(AdviserWay::HandsIn(blocks_of(alloc, names)?, 0)),
        },
    }
}

/// The adviser with this number by words: `last` proposes the block of its last report, the first
/// time two halves of black and white, and `new` opaque black the first time; `looking` proposes
/// two halves by the first texel, and `always BLOCK` the same block; of `BLOCK ..` each is proposed
/// once, and then the block of the last report. A block is a name or hexadecimal digits.
///
/// # Errors
///
/// Out of memory.
pub fn adviser_of(alloc: Global, notes: &Notes, number: u8, words: &str) -> io::Result<Noting> {
    let Ok(notes) = notes.clone() else {
        return Err(bad_row());
    };
    Ok(Noting {
        asked: 0,
        way: way_of(alloc, words)?,
        last: ZEROS,
        sum: 0,
        heard: None,
        number,
        notes,
    })
}

// A note as a text.
fn told_note(alloc: Global, note: &(u8, [u8; 16], u32)) -> Result<String, AllocError> {
    let (number, block, error) = *note;
    let name = name_of(&block);
    format!(in alloc; "{number} {name} {error}")
}

// The notes as a text: the adviser's number, the block and its error.
fn told_notes(alloc: Global, notes: &Notes) -> Result<String, AllocError> {
    let mut text = String::from_str(alloc, ", notes ")?;
    let Ok(noted) = notes.try_borrow() else {
        return Ok(text);
    };
    let noted = noted.as_slice();
    for k in 0..noted.len() {
        let gap = if k == 0 { "" } else { ";" };
        text.push_str(gap)?;
        text.push_str(told_note(alloc, &noted[k])?.as_str())?;
    }
    Ok(text)
}

// The blocks that a pool proposes for a source of 4x4 texels of which the first alone may be
// inside.
fn told_ask(alloc: Global, pool: &mut Pool, texels: &str) -> Result<String, AllocError> {
    let source = source_of::<4, 4>(texels.as_bytes());
    let (preset, flavour) = (Preset::Quick, Flavour::Linear);
    let ask = ask_of(preset, flavour, ChannelWeights::even(), &source);
    let blocks = pool.ask::<4, 4>(&ask);
    let mut text = String::from_str(alloc, " ->")?;
    for k in 0..blocks.len() {
        let gap = if k == 0 { " " } else { "; " };
        text.push_str(gap)?;
        text.push_str(told_block(alloc, &blocks[k])?.as_str())?;
    }
    Ok(text)
}

/// A block and its error for a report to advisers: `BLOCK ERROR`.
///
/// # Errors
///
/// If a number is missing.
pub fn block_and_error(words: &str) -> io::Result<([u8; 16], u32)> {
    let (name, error) = words.split_once(' ').unwrap_or((words, ""));
    Ok((block_of(name), number(error)?))
}

/// The text of a step that takes a pool and the notes of its advisers: `count`, `notes`, and `ask`
/// with the texels of a source. None if the step is another one.
///
/// # Errors
///
/// If a number is missing, or memory.
pub fn pool_step(
    alloc: Global,
    pool: &mut Pool,
    notes: &Notes,
    key: &str,
    rest: &str,
) -> io::Result<Option<String>> {
    match key {
        "notes" => Ok(Some(told_notes(alloc, notes)?)),
        "count" => {
            let count = pool.count();
            Ok(Some(format!(in alloc; ", advisers {count}")?))
        }
        "ask" => Ok(Some(told_ask(alloc, pool, rest)?)),
        _ => Ok(None),
    }
}
