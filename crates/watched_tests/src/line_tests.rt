// The progress as text, and the times at which the line on standard error is written.
use std::alloc::Global;
use std::cell::{Cell, RefCell};
use std::fmt::{Display, Write};
use std::io::{self, ErrorKind};
use std::process::Abort;
use std::rt::Clock;
use std::test::Fail;
use std::time::Duration;
use watched_shelf::{Grouped, RestEstimate, StandardErrorLine, Watcher};

#[test]
fn digits_stand_in_groups(rt: HostRuntime) -> Result<(), Fail> {
    for (n, wanted) in [
        (0, "0"),
        (7, "7"),
        (999, "999"),
        (1000, "1,000"),
        (12345, "12,345"),
        (1000005, "1,000,005"),
        (u64::MAX, "18,446,744,073,709,551,615"),
    ] {
        let text = format!(in rt.alloc(); "{}", Grouped(n))?;
        assert_eq!(rt; text.as_str(), wanted);
    }
    Ok(())
}

#[test]
fn estimates_are_told(rt: HostRuntime) -> Result<(), Fail> {
    let table = [
        // 9,100 ms * 16,327 / 12,345 = 12,035 ms
        (
            12345,
            Some(28672),
            Some(9100),
            "43 % (12,345 of 28,672 bytes), about 12 s left",
        ),
        (
            12345,
            Some(28672),
            Some(999),
            "43 % (12,345 of 28,672 bytes)",
        ),
        (12345, Some(28672), None, "43 % (12,345 of 28,672 bytes)"),
        (12345, None, Some(9100), "12,345 bytes"),
        (
            28672,
            Some(28672),
            Some(9100),
            "100 % (28,672 of 28,672 bytes)",
        ),
        (
            28673,
            Some(28672),
            Some(9100),
            "100 % (28,673 of 28,672 bytes)",
        ),
        (0, Some(28672), Some(9100), "0 % (0 of 28,672 bytes)"),
        (0, Some(0), Some(9100), "100 % (0 of 0 bytes)"),
        (
            1,
            Some(1001),
            Some(2000),
            "0 % (1 of 1,001 bytes), about 2000 s left",
        ),
    ];
    for (stands, whole, millis, wanted) in table {
        let estimate = RestEstimate {
            stands,
            whole,
            millis,
        };
        let text = format!(in rt.alloc(); "{estimate}")?;
        assert_eq!(rt; text.as_str(), wanted);
    }
    Ok(())
}

// A clock that is set, and a screen that keeps the written text.
#[derive(Drop)]
struct Desk {
    millis: Cell<Option<u64>>,
    screen: RefCell<String>,
}

impl Clock for Desk {
    fn monotonic(&self) -> io::Result<Duration> {
        match self.millis.get() {
            Some(millis) => Ok(Duration::from_millis(millis)),
            None => Err(io::Error::from(ErrorKind::Unsupported)),
        }
    }

    fn since_1970(&self) -> io::Result<Duration> {
        self.monotonic()
    }
}

impl Eprint for Desk {
    fn eprint<D: Display + Drop>(&self, value: D) -> io::Result<()> {
        match self.screen.try_borrow_mut() {
            Ok(mut text) => match write!(text, "{value}|") {
                Ok(()) => Ok(()),
                Err(_) => Err(io::Error::from(ErrorKind::OutOfMemory)),
            },
            Err(_) => Err(io::Error::from(ErrorKind::ResourceBusy)),
        }
    }

    fn eprintln<D: Display + Drop>(&self, value: D) -> io::Result<()> {
        self.eprint(value)
    }
}

// A desk with an empty screen.
fn empty_desk(alloc: Global) -> Desk {
    Desk {
        millis: Cell::new(None),
        screen: RefCell::new(String::new(alloc)),
    }
}

fn is_written(desk: &Desk, wanted: &str) -> bool {
    match desk.screen.try_borrow() {
        Ok(text) => text.as_str() == wanted,
        Err(_) => false,
    }
}

#[test]
fn the_line_is_written_ten_times_a_second_at_most(rt: HostRuntime) {
    let desk = empty_desk(rt.alloc());
    let mut line = StandardErrorLine::new(&desk);
    for (millis, stands) in [(500, 1), (599, 2), (600, 4), (699, 5), (1600, 6), (1601, 7)] {
        desk.millis.set(Some(millis));
        line.tell(stands, Some(8));
    }
    assert!(rt;
        is_written(
            &desk,
            "astc_tool: 50 % (4 of 8 bytes)\x1b[K\r|astc_tool: 75 % (6 of 8 bytes), about 0 s left\x1b[K\r|"
        )
    );
    line.tell(8, Some(8));
    line.finish(8, Some(8));
    assert!(rt;
        is_written(
            &desk,
            "astc_tool: 50 % (4 of 8 bytes)\x1b[K\r|astc_tool: 75 % (6 of 8 bytes), about 0 s left\x1b[K\r|astc_tool: 100 % (8 of 8 bytes)\x1b[K\n|"
        )
    );
}

#[test]
fn each_second_has_a_line_where_the_whole_is_not_known(rt: HostRuntime) {
    let desk = empty_desk(rt.alloc());
    let mut line = StandardErrorLine::new(&desk);
    for (millis, stands) in [(500, 1), (1499, 2), (1500, 3), (2499, 4), (2500, 5)] {
        desk.millis.set(Some(millis));
        line.tell(stands, None);
    }
    line.finish(6, None);
    assert!(rt;
        is_written(
            &desk,
            "astc_tool: 3 bytes\x1b[K\n|astc_tool: 5 bytes\x1b[K\n|"
        )
    );
}

#[test]
fn without_a_clock_every_64th_tell_is_written(rt: HostRuntime) {
    let desk = empty_desk(rt.alloc());
    let mut line = StandardErrorLine::new(&desk);
    for stands in 1..130u64 {
        line.tell(stands, Some(1000));
    }
    line.finish(130, Some(1000));
    assert!(rt;
        is_written(
            &desk,
            "astc_tool: 6 % (64 of 1,000 bytes)\x1b[K\r|astc_tool: 12 % (128 of 1,000 bytes)\x1b[K\r|astc_tool: 13 % (130 of 1,000 bytes)\x1b[K\n|"
        )
    );
}

#[test]
fn nothing_is_written_where_nothing_grew(rt: HostRuntime) {
    let desk = empty_desk(rt.alloc());
    let mut line = StandardErrorLine::new(&desk);
    line.finish(0, None);
    assert!(rt; is_written(&desk, ""));
}
