// The commands, and the files that they read.
ghost use Rattle.std.specs.Prelude.{◌≡◌};

use crate::counting::{CallCounts, CountingReport, CountingShelf};
use adviser_pool::Pool;
use astc_run::{MoreOutcome, run_more};
use std::alloc::{AllocError, Global};
use tex_shelf::{MemoryReport, MemoryShelf, NoMemory};

/// A command over the files below.
pub struct RefusedCommand {
    pub words: &'static str,
    /// The least number of bytes that are read, and the number that are written.
    pub reads: u32,
    pub writes: u32,
}

/// Every command that is given a shelf. The bytes that each reads and writes follow from its files'
/// formats.
pub static COMMANDS: [RefusedCommand; 9] = [
    RefusedCommand {
        words: "pack picture out 4x4 quick",
        reads: 129,
        writes: 112,
    },
    RefusedCommand {
        words: "packktx stored out 4x4 flat",
        reads: 84,
        writes: 112,
    },
    RefusedCommand {
        words: "unpack texture out",
        reads: 112,
        writes: 129,
    },
    RefusedCommand {
        words: "audit texture picture quick",
        reads: 241,
        writes: 0,
    },
    RefusedCommand {
        words: "import plain out",
        reads: 32,
        writes: 112,
    },
    RefusedCommand {
        words: "export texture out 0 0 0",
        reads: 112,
        writes: 32,
    },
    RefusedCommand {
        words: "part picture out 0 1 4x4 quick",
        reads: 129,
        writes: 152,
    },
    RefusedCommand {
        words: "join out second first",
        reads: 284,
        writes: 112,
    },
    RefusedCommand {
        words: "polish picture texture out quick",
        reads: 241,
        writes: 112,
    },
];

// A PAM picture of 4x4 texels of one colour.
static PICTURE: &[u8] = b"P7\nWIDTH 4\nHEIGHT 4\nDEPTH 4\nMAXVAL 255\nTUPLTYPE RGB_ALPHA\nENDHDR\n\
\x0A\x14\x1E\xFF\x0A\x14\x1E\xFF\x0A\x14\x1E\xFF\x0A\x14\x1E\xFF\x0A\x14\x1E\xFF\x0A\x14\x1E\xFF\x0A\x14\x1E\xFF\x0A\x14\x1E\xFF\
\x0A\x14\x1E\xFF\x0A\x14\x1E\xFF\x0A\x14\x1E\xFF\x0A\x14\x1E\xFF\x0A\x14\x1E\xFF\x0A\x14\x1E\xFF\x0A\x14\x1E\xFF\x0A\x14\x1E\xFF";

// The KTX file of that picture in blocks, its plain file, and an uncompressed KTX file of 2x2
// texels.
static TEXTURE: [u8; 112] = [
    0xAB, 0x4B, 0x54, 0x58, 0x20, 0x31, 0x31, 0xBB, 0x0D, 0x0A, 0x1A, 0x0A, 1, 2, 3, 4, 0, 0, 0, 0,
    1, 0, 0, 0, 0, 0, 0, 0, 0xB0, 0x93, 0, 0, 0x08, 0x19, 0, 0, 4, 0, 0, 0, 4, 0, 0, 0, 0, 0, 0, 0,
    0, 0, 0, 0, 1, 0, 0, 0, 1, 0, 0, 0, 28, 0, 0, 0, 0x17, 0, 0, 0, b'K', b'T', b'X', b'o', b'r',
    b'i', b'e', b'n', b't', b'a', b't', b'i', b'o', b'n', 0, b'S', b'=', b'r', b',', b'T', b'=',
    b'd', 0, 0, 0x10, 0, 0, 0, 0xFC, 0xFD, 0xFF, 0xFF, 0xFF, 0xFF, 0xFF, 0xFF, 0x0A, 0x0A, 0x14,
    0x14, 0x1E, 0x1E, 0xFF, 0xFF,
];

static PLAIN: [u8; 32] = [
    0x13, 0xAB, 0xA1, 0x5C, 4, 4, 1, 4, 0, 0, 4, 0, 0, 1, 0, 0, 0xFC, 0xFD, 0xFF, 0xFF, 0xFF, 0xFF,
    0xFF, 0xFF, 0x0A, 0x0A, 0x14, 0x14, 0x1E, 0x1E, 0xFF, 0xFF,
];

static STORED: [u8; 84] = [
    0xAB, 0x4B, 0x54, 0x58, 0x20, 0x31, 0x31, 0xBB, 0x0D, 0x0A, 0x1A, 0x0A, 1, 2, 3, 4, 1, 0x14, 0,
    0, 1, 0, 0, 0, 7, 0x19, 0, 0, 0x51, 0x80, 0, 0, 7, 0x19, 0, 0, 2, 0, 0, 0, 2, 0, 0, 0, 0, 0, 0,
    0, 0, 0, 0, 0, 1, 0, 0, 0, 1, 0, 0, 0, 0, 0, 0, 0, 0x10, 0, 0, 0, 7, 7, 7, 7, 7, 7, 0, 0, 7, 7,
    7, 7, 7, 7, 0, 0,
];

// The two parts of that texture, whose first has no block.
static FIRST: [u8; 132] = [
    0x61, 0x73, 0x74, 0x63, 0x5F, 0x74, 0x6F, 0x6F, 0x6C, 0x20, 0x70, 0x61, 0x72, 0x74, 0x0D, 0x0A,
    0xAB, 0x4B, 0x54, 0x58, 0x20, 0x31, 0x31, 0xBB, 0x0D, 0x0A, 0x1A, 0x0A, 1, 2, 3, 4, 0, 0, 0, 0,
    1, 0, 0, 0, 0, 0, 0, 0, 0xB0, 0x93, 0, 0, 8, 0x19, 0, 0, 4, 0, 0, 0, 4, 0, 0, 0, 0, 0, 0, 0, 0,
    0, 0, 0, 1, 0, 0, 0, 1, 0, 0, 0, 0x1C, 0, 0, 0, 0x17, 0, 0, 0, 0x4B, 0x54, 0x58, 0x6F, 0x72,
    0x69, 0x65, 0x6E, 0x74, 0x61, 0x74, 0x69, 0x6F, 0x6E, 0, 0x53, 0x3D, 0x72, 0x2C, 0x54, 0x3D,
    0x64, 0, 0, 0, 0, 0, 0, 2, 0, 0, 0, 0, 0, 0, 0, 1, 1, 1, 1, 0xE5, 0x13, 0x90, 0x92, 0x9F, 0xA0,
    0xBF, 0x27,
];

static SECOND: [u8; 152] = [
    0x61, 0x73, 0x74, 0x63, 0x5F, 0x74, 0x6F, 0x6F, 0x6C, 0x20, 0x70, 0x61, 0x72, 0x74, 0x0D, 0x0A,
    0xAB, 0x4B, 0x54, 0x58, 0x20, 0x31, 0x31, 0xBB, 0x0D, 0x0A, 0x1A, 0x0A, 1, 2, 3, 4, 0, 0, 0, 0,
    1, 0, 0, 0, 0, 0, 0, 0, 0xB0, 0x93, 0, 0, 8, 0x19, 0, 0, 4, 0, 0, 0, 4, 0, 0, 0, 0, 0, 0, 0, 0,
    0, 0, 0, 1, 0, 0, 0, 1, 0, 0, 0, 0x1C, 0, 0, 0, 0x17, 0, 0, 0, 0x4B, 0x54, 0x58, 0x6F, 0x72,
    0x69, 0x65, 0x6E, 0x74, 0x61, 0x74, 0x69, 0x6F, 0x6E, 0, 0x53, 0x3D, 0x72, 0x2C, 0x54, 0x3D,
    0x64, 0, 0, 1, 0, 0, 0, 2, 0, 0, 0, 0, 0, 0, 0, 1, 1, 1, 1, 0xE5, 0x13, 0x90, 0x92, 0x9F, 0xA0,
    0xBF, 0x27, 0xFC, 0xFD, 0xFF, 0xFF, 0xFF, 0xFF, 0xFF, 0xFF, 0x0A, 0x0A, 0x14, 0x14, 0x1E, 0x1E,
    0xFF, 0xFF, 0, 0, 0, 0,
];

/// The end of a run, its report and files, and the calls that it made.
#[derive(Drop)]
pub struct Ended {
    pub outcome: MoreOutcome,
    pub told: String,
    /// The output, if there is one.
    pub output: Option<Vec<u8>>,
    /// Whether the inputs are as they were.
    pub keeps_inputs: bool,
    pub calls: CallCounts,
    /// The number of calls of the report.
    pub report_puts: u32,
}

// Puts the inputs into a shelf.
fn add_inputs(shelf: &mut MemoryShelf) -> Result<(), NoMemory> {
    shelf.add_file("picture", PICTURE)?;
    shelf.add_file("texture", &TEXTURE)?;
    shelf.add_file("plain", &PLAIN)?;
    shelf.add_file("first", &FIRST)?;
    shelf.add_file("second", &SECOND)?;
    shelf.add_file("stored", &STORED)
}

// Whether the inputs of a shelf are as they were put into it.
fn keeps_inputs(shelf: &MemoryShelf) -> bool {
    shelf.file("picture") == Some(PICTURE)
        && shelf.file("texture") == Some(TEXTURE.as_slice())
        && shelf.file("plain") == Some(PLAIN.as_slice())
        && shelf.file("first") == Some(FIRST.as_slice())
        && shelf.file("second") == Some(SECOND.as_slice())
        && shelf.file("stored") == Some(STORED.as_slice())
}

fn words_of(alloc: Global, text: &str) -> Result<Vec<String>, AllocError> {
    let mut words = Vec::new(alloc);
    for word in text.split(' ') {
        words.push(String::from_str(alloc, word)?)?;
    }
    Ok(words)
}

// A shelf of the inputs whose calls move at most `most` bytes, and whose call with this number
// fails.
fn failing_shelf(alloc: Global, most: usize, call: u32) -> Result<MemoryShelf, NoMemory> {
    let mut shelf = MemoryShelf::new(alloc);
    add_inputs(&mut shelf)?;
    shelf.bite(most);
    shelf.fail_at(call)?;
    Ok(shelf)
}

// A report whose call of this number fails.
fn failing_report(alloc: Global, call: u32) -> Result<MemoryReport, NoMemory> {
    let mut report = MemoryReport::new(alloc);
    report.fail_at(call)?;
    Ok(report)
}

// Does what words ask for.
fn run_words(
    alloc: Global,
    words: &[String],
    shelf: &mut CountingShelf<MemoryShelf>,
    report: &mut CountingReport<MemoryReport>,
) -> MoreOutcome {
    run_more(alloc, words, shelf, report, &mut Pool::new())
}

/// Runs a command in which the calls with these numbers fail, of the shelf and of the report; none
/// for 0.
pub fn run_failing(
    alloc: Global,
    command: &RefusedCommand,
    most: usize,
    shelf_call: u32,
    report_call: u32,
) -> Result<Ended, AllocError> {
    let words = words_of(alloc, command.words)?;
    let Ok(shelf) = failing_shelf(alloc, most, shelf_call) else {
        return Err(AllocError);
    };
    let Ok(report) = failing_report(alloc, report_call) else {
        return Err(AllocError);
    };
    let mut shelf = CountingShelf::new(shelf);
    let mut report = CountingReport::new(report);
    let outcome = run_words(alloc, &words, &mut shelf, &mut report);
    let output = match shelf.inner.file("out") {
        Some(bytes) => Some(Vec::from_slice(alloc, bytes)?),
        None => None,
    };
    Ok(Ended {
        outcome,
        told: String::from_str(alloc, report.inner.text())?,
        output,
        keeps_inputs: keeps_inputs(&shelf.inner),
        calls: shelf.calls,
        report_puts: report.puts,
    })
}
