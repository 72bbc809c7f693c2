use std::alloc::Global;
use std::cell::{Cell, RefCell};
use std::fmt::Display;
use std::path::PathBuf;
use std::process::Abort;
use std::{env, fs, io};
use tex_shelf::*;

// No test returns early, since each `?` is one more path to prove. The calls of a shelf in memory
// are a table, since the facts about its files grow with each call.

// Calls, and what they give. All of them take into one buffer, which then has these bytes.
enum Step {
    Opens(&'static str, Result<(), ShelfStop>),
    Takes(usize, [u8; 8]),
    TakesFull(usize, [u8; 8]),
    // A `create` and a `put`.
    Puts(&'static str, &'static [u8], usize),
    PutsAll(&'static str, &'static [u8]),
    // The file that is created is set to the first bytes, and grows on by the others.
    GrowsOn(&'static str, &'static [u8], &'static [u8]),
    Holds(&'static str, &'static [u8]),
    Lacks(&'static str),
}

use Step::*;

// Each kind of step is a function, since the facts about the shelf grow with each call.
fn takes(shelf: &mut MemoryShelf, into: &mut [u8; 8], n: usize, after: &[u8; 8]) -> bool {
    shelf.take(into) == Ok(n) && *into == *after
}

fn takes_full(shelf: &mut MemoryShelf, into: &mut [u8; 8], n: usize, after: &[u8; 8]) -> bool {
    take_full(shelf, into) == Ok(n) && *into == *after
}

fn puts(shelf: &mut MemoryShelf, name: &str, bytes: &[u8], n: usize) -> bool {
    shelf.create(name).is_ok() && shelf.put(bytes) == Ok(n)
}

fn puts_all(shelf: &mut MemoryShelf, name: &str, bytes: &[u8]) -> bool {
    shelf.create(name).is_ok() && put_all(shelf, bytes).is_ok()
}

fn grows_on(shelf: &mut MemoryShelf, name: &str, set: &[u8], more: &[u8]) -> bool {
    shelf.create(name).is_ok() && shelf.add_file(name, set).is_ok() && put_all(shelf, more).is_ok()
}

fn holds(shelf: &MemoryShelf, name: &str, bytes: &[u8]) -> bool {
    match shelf.file(name) {
        Some(held) => *held == *bytes,
        None => false,
    }
}

fn is_so(shelf: &mut MemoryShelf, into: &mut [u8; 8], step: &Step) -> bool {
    match step {
        Opens(name, gives) => shelf.open(name) == *gives,
        Takes(n, after) => takes(shelf, into, *n, after),
        TakesFull(n, after) => takes_full(shelf, into, *n, after),
        Puts(name, bytes, n) => puts(shelf, name, bytes, *n),
        PutsAll(name, bytes) => puts_all(shelf, name, bytes),
        GrowsOn(name, set, more) => grows_on(shelf, name, set, more),
        Holds(name, bytes) => holds(shelf, name, bytes),
        Lacks(name) => shelf.file(name).is_none(),
    }
}

static STEPS: [Step; 15] = [
    Opens("a", Ok(())),
    Takes(2, [1, 2, 9, 9, 9, 9, 9, 9]),
    Takes(1, [3, 2, 9, 9, 9, 9, 9, 9]),
    Takes(0, [3, 2, 9, 9, 9, 9, 9, 9]),
    Puts("b", &[4, 5, 6], 2),
    Holds("b", &[4, 5]),
    Opens("c", Err(ShelfStop::Failed)),
    Lacks("c"),
    Opens("a", Ok(())),
    TakesFull(3, [1, 2, 3, 9, 9, 9, 9, 9]),
    PutsAll("b", &[4, 5, 6]),
    Holds("b", &[4, 5, 6]),
    GrowsOn("b", &[7], &[8]),
    Holds("b", &[7, 8]),
    Holds("a", &[1, 2, 3]),
];

#[test]
fn a_memory_shelf_moves_two_bytes_a_call(rt: HostRuntime) {
    let mut shelf = MemoryShelf::new(rt.alloc());
    shelf.add_file("a", &[1, 2, 3]).expect(&rt, "add_file");
    shelf.bite(2);
    let mut into = [9; 8];
    for (at, step) in STEPS.iter().enumerate() {
        assert!(rt; is_so(&mut shelf, &mut into, step), "step {at}");
    }
    assert_eq!(rt; shelf.read_faults(), 1);
    assert_eq!(rt; shelf.write_faults(), 0);
}

#[test]
fn a_memory_shelf_fails_where_it_is_told_to(rt: HostRuntime) {
    let mut shelf = MemoryShelf::new(rt.alloc());
    shelf.fail_at(2).expect(&rt, "fail_at");
    shelf.create("b").expect(&rt, "create");
    assert_eq!(rt; shelf.create("c"), Err(ShelfStop::Failed));
    assert_eq!(rt; shelf.write_faults(), 1);
    assert!(rt; shelf.file("c").is_none());
}

fn opened_steady(rt: &impl Abort, alloc: Global) -> SteadyShelf {
    let mut shelf = SteadyShelf::new(alloc);
    shelf.add_file("a", &[1, 2, 3]).expect(rt, "add_file");
    assert!(rt; shelf.file("a").is_some());
    shelf.open("a").expect(rt, "open");
    shelf
}

#[test]
fn a_steady_shelf_reads(rt: HostRuntime) {
    let mut shelf = opened_steady(&rt, rt.alloc());
    let mut into = [9; 2];
    assert_eq!(rt; shelf.take(&mut into), Ok(2));
    assert_eq!(rt; into, [1, 2]);
    assert_eq!(rt; take_full(&mut shelf, &mut into), Ok(1));
    assert_eq!(rt; into, [3, 2]);
}

fn written_steady(rt: &impl Abort, alloc: Global) -> SteadyShelf {
    let mut shelf = SteadyShelf::new(alloc);
    shelf.create("b").expect(rt, "create");
    assert_eq!(rt; shelf.put(&[4, 5]), Ok(2));
    put_all(&mut shelf, &[6]).expect(rt, "put_all");
    shelf
}

#[test]
fn a_steady_shelf_writes(rt: HostRuntime) {
    let shelf = written_steady(&rt, rt.alloc());
    assert_eq!(rt; shelf.file("b"), Some([4, 5, 6].as_slice()));
    assert!(rt; shelf.file("c").is_none());
}

#[test]
fn a_memory_report_fails_where_it_is_told_to(rt: HostRuntime) {
    let mut report = MemoryReport::new(rt.alloc());
    report.fail_at(1).expect(&rt, "fail_at");
    report.fail_at(3).expect(&rt, "fail_at");
    assert_eq!(rt; report.put("none"), Err(ShelfStop::Failed));
    assert_eq!(rt; report.text(), "");
    report.put("one").expect(&rt, "put");
    assert_eq!(rt; report.put("two"), Err(ShelfStop::Failed));
    report.put(", three").expect(&rt, "put");
    assert_eq!(rt; report.text(), "one, three");
}

fn temporary(rt: &HostRuntime, name: &str) -> io::Result<PathBuf> {
    Ok(env::temp_dir(rt)?.join(rt.alloc(), name)?)
}

// Makes a file of these bytes.
fn stores(shelf: &mut FileShelf<HostRuntime>, name: &str, bytes: &[u8]) -> bool {
    shelf.create(name).is_ok() && put_all(shelf, bytes).is_ok()
}

fn opens(shelf: &mut FileShelf<HostRuntime>, name: &str) -> Result<(), ShelfStop> {
    shelf.open(name)
}

fn creates(shelf: &mut FileShelf<HostRuntime>, name: &str) -> Result<(), ShelfStop> {
    shelf.create(name)
}

#[test]
fn a_file_shelf_opens_one_file_after_the_other(rt: HostRuntime) {
    let first = temporary(&rt, "tex_shelf_first").expect(&rt, "first");
    let second = temporary(&rt, "tex_shelf_second").expect(&rt, "second");
    let mut shelf = FileShelf::new(rt.clone().expect(&rt, "clone"), rt.alloc());
    assert!(rt; stores(&mut shelf, first.as_str(), &[1, 2, 3]));
    assert!(rt; stores(&mut shelf, second.as_str(), &[4, 5]));
    assert_eq!(rt; opens(&mut shelf, first.as_str()), Ok(()));
    assert_eq!(rt; opens(&mut shelf, second.as_str()), Ok(()));
    let mut into = [9; 4];
    assert_eq!(rt; take_full(&mut shelf, &mut into), Ok(2));
    assert_eq!(rt; into, [4, 5, 9, 9]);
    fs::remove_file(&rt, first.as_str()).expect(&rt, "remove_file");
    fs::remove_file(&rt, second.as_str()).expect(&rt, "remove_file");
}

#[test]
fn a_file_shelf_keeps_its_input_at_a_refusal(rt: HostRuntime) {
    let path = temporary(&rt, "tex_shelf_kept").expect(&rt, "kept");
    let nowhere = path.join(rt.alloc(), "none").expect(&rt, "join");
    let mut shelf = FileShelf::new(rt.clone().expect(&rt, "clone"), rt.alloc());
    assert!(rt; stores(&mut shelf, path.as_str(), &[1, 2]));
    let mut into = [9; 1];
    assert_eq!(rt; shelf.take(&mut into), Ok(0));
    assert_eq!(rt; opens(&mut shelf, path.as_str()), Ok(()));
    assert_eq!(rt;
        creates(&mut shelf, nowhere.as_str()),
        Err(ShelfStop::Failed)
    );
    assert_eq!(rt; opens(&mut shelf, nowhere.as_str()), Err(ShelfStop::Failed));
    assert_eq!(rt; take_full(&mut shelf, &mut into), Ok(1));
    assert_eq!(rt; into, [1]);
    // The input may be the file that is created, and is then closed.
    assert_eq!(rt; creates(&mut shelf, path.as_str()), Ok(()));
    assert_eq!(rt; shelf.take(&mut into), Ok(0));
    fs::remove_file(&rt, path.as_str()).expect(&rt, "remove_file");
}

// Standard output that is kept. A call takes two bytes, and after `left` calls it is broken.
#[derive(Drop)]
struct Paper {
    text: RefCell<Vec<u8>>,
    calls: Cell<u8>,
}

impl Print for Paper {
    fn print<D: Display + Drop>(&self, _: D) -> io::Result<()> {
        Err(io::Error::from(io::ErrorKind::Unsupported))
    }

    fn println<D: Display + Drop>(&self, _: D) -> io::Result<()> {
        Err(io::Error::from(io::ErrorKind::Unsupported))
    }

    fn write_all(&self, _: &[u8]) -> io::Result<()> {
        Err(io::Error::from(io::ErrorKind::Unsupported))
    }

    fn write_some(&self, bytes: &[u8]) -> io::Result<usize> {
        let calls = self.calls.get();
        if calls == 0 {
            return Err(io::Error::from(io::ErrorKind::BrokenPipe));
        }
        self.calls.set(calls - 1);
        let n = bytes.len().min(2);
        let Ok(mut text) = self.text.try_borrow_mut() else {
            return Err(io::Error::from(io::ErrorKind::Other));
        };
        text.extend_from_slice(&bytes[..n])?;
        Ok(n)
    }
}

#[test]
fn a_stream_report_prints_the_whole_text(rt: HostRuntime) {
    let paper = Paper {
        text: RefCell::new(Vec::new(rt.alloc())),
        calls: Cell::new(5),
    };
    let mut report = StreamReport::new(&paper, rt.alloc());
    report.put("one\n").expect(&rt, "put");
    report.put("more\n").expect(&rt, "put");
    assert_eq!(rt; report.put("none\n"), Err(ShelfStop::Failed));
    assert_eq!(rt;
        paper.text.try_borrow().expect(&rt, "borrow").as_slice(),
        b"one\nmore\n".as_slice()
    );
    let mut printed = StreamReport::new(rt.clone().expect(&rt, "clone"), rt.alloc());
    printed.put("printed\n").expect(&rt, "put");
}

// The first try is interrupted, the second moves a byte, and all others fail.
#[derive(Drop)]
struct Interrupted {
    tries: u8,
}

impl Interrupted {
    fn next(&mut self) -> io::Result<()> {
        self.tries = self.tries.saturating_add(1);
        match self.tries {
            1 => Err(io::Error::from(io::ErrorKind::Interrupted)),
            2 => Ok(()),
            _ => Err(io::Error::from(io::ErrorKind::Other)),
        }
    }
}

impl io::Read for Interrupted {
    fn read(&mut self, buf: &mut [u8]) -> io::Result<usize> {
        self.next()?;
        match buf {
            [first, ..] => {
                *first = 7;
                Ok(1)
            }
            [] => Ok(0),
        }
    }
}

impl io::Write for Interrupted {
    fn write(&mut self, buf: &[u8]) -> io::Result<usize> {
        self.next()?;
        Ok(buf.len().min(1))
    }

    fn flush(&mut self) -> io::Result<()> {
        Ok(())
    }
}

#[test]
fn an_interruption_is_no_fault(rt: HostRuntime) {
    let mut input = Interrupted { tries: 0 };
    let mut into = [9; 4];
    assert_eq!(rt;
        read_through(&mut input, &mut [0; 2], &mut into).expect(&rt, "a byte"),
        1
    );
    assert_eq!(rt; into, [7, 9, 9, 9]);
    assert!(rt; read_through(&mut input, &mut [0; 2], &mut into).is_err());
    let mut output = Interrupted { tries: 0 };
    assert_eq!(rt; write_some(&mut output, &[1, 2]).expect(&rt, "a byte"), 1);
    assert!(rt; write_some(&mut output, &[1, 2]).is_err());
}
