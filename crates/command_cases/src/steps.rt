// The steps of rows, one by one.
use crate::commands::ended;
use crate::ends::{sums_of, without_sums};
use crate::judging::{told_job, told_memory, told_verdict};
use crate::settling::settle_file;
use crate::trials::{told_picture, tried};
use adviser_pool::Pool;
use case_blocks::{adviser_of, new_notes, pool_step};
use case_files::{add_file, bad_row, fail_at, file_by, number, shelf_with, told};
use std::alloc::{AllocError, Global};
use std::io;
use tex_shelf::MemoryShelf;

// The text of the steps so far.
#[derive(Drop)]
struct Told {
    text: String,
    /// The text of the last command.
    last: String,
    /// Whether sums of errors are left out.
    hides: bool,
    /// The call of the next report that fails.
    failing: u32,
}

impl Told {
    fn new(alloc: Global) -> Told {
        Told {
            text: String::new(alloc),
            last: String::new(alloc),
            hides: false,
            failing: 0,
        }
    }

    // Whether all sums of the last command are the same.
    fn equal(&self, alloc: Global) -> Result<&'static str, AllocError> {
        told_equal(alloc, self.last.as_str())
    }

    // Whether the last sum of the last command is at most this.
    fn most(&self, most: &str) -> io::Result<&'static str> {
        told_most(self.last.as_str(), most)
    }

    // Adds the text of a step, after a gap unless it is the first.
    fn add(&mut self, gap: &str, text: &str) -> Result<(), AllocError> {
        if !self.text.is_empty() {
            self.text.push_str(gap)?;
        }
        self.text.push_str(text)
    }

    // Adds the text of a command; after the first command, on a new line with its words.
    fn add_command(&mut self, alloc: Global, words: &str, text: &str) -> Result<(), AllocError> {
        let shown = if self.hides {
            without_sums(alloc, text)?
        } else {
            String::from_str(alloc, text)?
        };
        if !self.text.is_empty() {
            self.text
                .push_str(format!(in alloc; "\n  {words}: ")?.as_str())?;
        }
        self.text.push_str(shown.as_str())?;
        self.last = String::from_str(alloc, text)?;
        Ok(())
    }
}

// A file as a text.
fn told_file(alloc: Global, shelf: &MemoryShelf, name: &str) -> Result<String, AllocError> {
    match shelf.file(name) {
        Some(bytes) => told(alloc, bytes),
        None => String::from_str(alloc, "no file"),
    }
}

// The length of a file as a text.
fn told_length(alloc: Global, shelf: &MemoryShelf, name: &str) -> Result<String, AllocError> {
    let length = shelf.file(name).unwrap_or(&[]).len();
    format!(in alloc; "{length} bytes")
}

// Whether all sums of a text are the same.
fn told_equal(alloc: Global, text: &str) -> Result<&'static str, AllocError> {
    let sums = sums_of(alloc, text)?;
    let first = sums.as_str().trim().split(' ').next().unwrap_or("");
    for sum in sums.as_str().trim().split(' ') {
        if sum != first {
            return Ok("sums differ");
        }
    }
    Ok("sums equal")
}

// Whether two files are the same, each of which is there.
fn told_same(shelf: &MemoryShelf, names: &str) -> &'static str {
    let (one, other) = names.split_once(' ').unwrap_or((names, ""));
    match (shelf.file(one), shelf.file(other)) {
        (Some(bytes), Some(others)) if bytes == others => "the same",
        _ => "another",
    }
}

// Makes a file by a rule that names files of a shelf: `NAME RULE`.
fn file_of(
    alloc: Global,
    from: &MemoryShelf,
    shelf: &mut MemoryShelf,
    rule: &str,
) -> io::Result<()> {
    let (name, rule) = rule.split_once(' ').unwrap_or((rule, ""));
    let file = file_by(alloc, from, rule)?;
    add_file(shelf, name, &file)
}

// Makes a file of a rule over files of the shelf itself.
fn make(alloc: Global, shelf: &mut MemoryShelf, rule: &str) -> io::Result<()> {
    let (name, rule) = rule.split_once(' ').unwrap_or((rule, ""));
    let file = file_by(alloc, shelf, rule)?;
    add_file(shelf, name, &file)
}

// Whether the last sum of a text is at most this.
fn told_most(told: &str, most: &str) -> io::Result<&'static str> {
    let (_, sum) = told.rsplit_once(' ').unwrap_or((told, ""));
    Ok(if number(sum)? <= number(most)? {
        "at most"
    } else {
        "more"
    })
}

// Performs a step over files. None if the step is another one.
fn file_step(
    alloc: Global,
    named: &MemoryShelf,
    shelf: &mut MemoryShelf,
    told: &mut Told,
    key: &str,
    rest: &str,
) -> io::Result<Option<()>> {
    match key {
        "file" => file_of(alloc, named, shelf, rest)?,
        "make" => make(alloc, shelf, rest)?,
        "fail" => fail_at(shelf, number(rest)?)?,
        "settle" => settle_file(alloc, shelf, rest)?,
        "fail-report" => told.failing = number(rest)?,
        "hide" => told.hides = true,
        "show" => told.add(" -> ", told_file(alloc, shelf, rest)?.as_str())?,
        "compare" => told.add(" -> ", told_same(shelf, rest))?,
        "length" => told.add(" -> ", told_length(alloc, shelf, rest)?.as_str())?,
        "equal" => told.add(", ", told.equal(alloc)?)?,
        "most" => told.add(", ", told.most(rest)?)?,
        _ => return Ok(None),
    }
    Ok(Some(()))
}

// How a command ends and how long its output is then, if each call of the shelf fails in turn up to
// the first that is not made. Failed reads are left out.
fn each_end(alloc: Global, shelf: &MemoryShelf, words: &str) -> io::Result<String> {
    let mut ends = String::new(alloc);
    for call in 1..50u32 {
        let mut trying = MemoryShelf::new(alloc);
        add_file(&mut trying, "in", shelf.file("in").unwrap_or(&[]))?;
        fail_at(&mut trying, call)?;
        let end = ended(alloc, words, &mut trying, 0, &mut Pool::new())?;
        let left = told_length(alloc, &trying, "out")?;
        if !end.as_str().starts_with("5 ") {
            let gap = if ends.is_empty() { "" } else { " / " };
            let (status, _) = end.as_str().split_once(' ').unwrap_or(("", ""));
            ends.push_str(format!(in alloc; "{gap}{status} and {left}")?.as_str())?;
        }
        if end.as_str().starts_with("0 ") {
            break;
        }
    }
    Ok(ends)
}

// The text of a step that takes no command: single calls.
fn single_call(
    alloc: Global,
    shelf: &mut MemoryShelf,
    told: &Told,
    key: &str,
    rest: &str,
) -> io::Result<Option<String>> {
    match key {
        "words" => Ok(Some(told_job(alloc, rest)?)),
        "memory" => Ok(Some(told_memory(alloc)?)),
        "each" => Ok(Some(each_end(alloc, shelf, rest)?)),
        "verdict" => Ok(Some(told_verdict(alloc, rest)?)),
        "picture" => Ok(Some(told_picture(alloc, rest)?)),
        "trial-files" => Ok(Some(tried(alloc, rest, told.failing, shelf)?)),
        _ => Ok(None),
    }
}

// Whether a text is as another: the same, or with the same sums.
fn told_like(alloc: Global, text: &str, other: &str) -> Result<&'static str, AllocError> {
    if text == other {
        return Ok(", as before");
    }
    let (sums, others) = (sums_of(alloc, text)?, sums_of(alloc, other)?);
    Ok(if sums.as_str() == others.as_str() {
        ", sums as before"
    } else {
        ", not as before"
    })
}

// The text that a command is compared with: that of a first run, or that of the last command.
fn told_before(
    alloc: Global,
    shelf: &mut MemoryShelf,
    pool: &mut Pool,
    last: &str,
    key: &str,
    words: &str,
) -> io::Result<String> {
    if key == "twice" {
        ended(alloc, words, shelf, 0, pool)
    } else {
        Ok(String::from_str(alloc, last)?)
    }
}

// Runs a command; with `twice` before it two times, and with `like` it is compared with the last
// one.
fn command(
    alloc: Global,
    shelf: &mut MemoryShelf,
    pool: &mut Pool,
    told: &mut Told,
    key: &str,
    rest: &str,
    text: &str,
) -> io::Result<()> {
    let compares = key == "twice" || key == "like";
    let words = if compares { rest } else { text };
    let before = told_before(alloc, shelf, pool, told.last.as_str(), key, words)?;
    let end = ended(alloc, words, shelf, told.failing, pool)?;
    told.add_command(alloc, words, end.as_str())?;
    if compares {
        told.add("", told_like(alloc, end.as_str(), before.as_str())?)?;
    }
    Ok(())
}

// Does a step that takes a command or single calls.
fn call_step(
    alloc: Global,
    shelf: &mut MemoryShelf,
    pool: &mut Pool,
    told: &mut Told,
    text: &str,
) -> io::Result<()> {
    let (key, rest) = text.split_once(' ').unwrap_or((text, ""));
    match single_call(alloc, shelf, told, key, rest)? {
        Some(found) => Ok(told.add_command(alloc, text, found.as_str())?),
        None => command(alloc, shelf, pool, told, key, rest, text),
    }
}

/// The text of steps, with ` then ` between two, over a shelf with the file `in`, if there is one.
/// A call moves at most `most` bytes. Advisers, each a step `adviser WORDS`, are there from the
/// start.
pub fn told_of(
    alloc: Global,
    named: &MemoryShelf,
    steps: &str,
    file: Option<&[u8]>,
    most: usize,
) -> io::Result<String> {
    let notes = new_notes(alloc)?;
    // A pool is used at the place that makes it, and takes a box that is made there.
    let mut pool = Pool::new();
    let mut number = 0u8;
    for text in steps.split(" then ") {
        if let Some(words) = text.strip_prefix("adviser ") {
            number = number.saturating_add(1);
            let Ok(boxed) = Box::new(alloc, adviser_of(alloc, &notes, number, words)?) else {
                return Err(bad_row());
            };
            if pool.add(boxed).is_err() {
                return Err(bad_row());
            }
        }
    }
    let mut shelf = shelf_with(alloc, file, most)?;
    let mut told = Told::new(alloc);
    for text in steps.split(" then ") {
        let (key, rest) = text.split_once(' ').unwrap_or((text, ""));
        let is_done = key == "adviser"
            || file_step(alloc, named, &mut shelf, &mut told, key, rest)?.is_some();
        if !is_done {
            match pool_step(alloc, &mut pool, &notes, key, rest)? {
                Some(found) => told.add("", found.as_str())?,
                None => call_step(alloc, &mut shelf, &mut pool, &mut told, text)?,
            }
        }
    }
    Ok(told.text)
}
