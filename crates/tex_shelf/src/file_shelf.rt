// A shelf of real files.
ghost use Rattle.std.specs.Prelude.{◌≡◌, ◌<◌, None, vec_len};

use crate::edge::{read_through, stop_at, write_some};
use crate::{Shelf, ShelfStop};
use std::alloc::Global;
use std::fs::Files;
use std::marker::Model;
use std::{fs, io};

/// The most bytes that a `take` moves.
const BUFFER_SIZE: usize = 1 << 16;

#[derive(Drop)]
struct Input<F: Drop> {
    file: F,
    /// The buffer of each read, so that the bytes after the read ones stay unchanged.
    buffer: Vec<u8>,
    ghost room: { 0 < vec_len buffer },
}

#[derive(Drop)]
struct Output<F: Drop> {
    name: String,
    file: F,
}

/// A shelf of real files, whose names are paths. Contracts see the target and the counts of faults,
/// and no contents.
#[derive(Drop)]
pub struct FileShelf<R: Files + Drop> {
    rt: R,
    alloc: Global,
    input: Option<Input<R::File>>,
    output: Option<Output<R::File>>,
    read_faults: u64,
    write_faults: u64,
}

impl<R: Files + Drop> Model for FileShelf<R> {
    ghost use Rattle.std.specs.Prelude.{option_map, string_bytes};
    ghost use Rattle.tex_shelf.specs.States.{FileShelfState};

    ghost Value = { FileShelfState };

    ghost view = { λ s. record {
      target = option_map (λ output. string_bytes output.name) s.output;
      read_faults = s.read_faults;
      write_faults = s.write_faults;
    } };
}

impl<R: Files + Drop> FileShelf<R> {
    /// A shelf that keeps this runtime, with no open or created file. Until a file is opened,
    /// `take` returns 0.
    pub fn new(rt: R, alloc: Global) -> Self
        ensures { result ≡ record { target = None; read_faults = 0; write_faults = 0 } }
    {
        FileShelf {
            rt,
            alloc,
            input: None,
            output: None,
            read_faults: 0,
            write_faults: 0,
        }
    }
}

fn open_input<R: Files>(rt: &R, alloc: Global, name: &str) -> io::Result<Input<R::File>> {
    let buffer = vec![in alloc; 0; BUFFER_SIZE]?;
    let file = fs::open(rt, name)?;
    Ok(Input { file, buffer })
}

impl<R: Files + Drop> Shelf for FileShelf<R> {
    ghost files = { λ s. None };

    ghost left = { λ s. None };

    ghost target = { λ s. s.target };

    ghost read_faults = { λ s. s.read_faults };

    ghost write_faults = { λ s. s.write_faults };

    ghost can_open = { λ s name. Unit {0} };

    ghost can_create = { λ s name. Unit {0} };

    ghost tells_left = { λ s told. told };

    fn open(&mut self, name: &str) -> Result<(), ShelfStop> {
        match open_input(&self.rt, self.alloc, name) {
            Ok(input) => {
                self.input = Some(input);
                Ok(())
            }
            Err(error) => Err(stop_at(&error, &mut self.read_faults)),
        }
    }

    fn take(&mut self, into: &mut [u8]) -> Result<usize, ShelfStop> {
        let Some(input) = &mut self.input else {
            return Ok(0);
        };
        match read_through(&mut input.file, &mut input.buffer, into) {
            Ok(n) => Ok(n),
            Err(error) => Err(stop_at(&error, &mut self.read_faults)),
        }
    }

    fn create(&mut self, name: &str) -> Result<(), ShelfStop> {
        let name = String::from_str(self.alloc, name)?;
        match fs::create(&self.rt, name.as_str()) {
            Ok(file) => {
                self.input = None;
                self.output = Some(Output { name, file });
                Ok(())
            }
            Err(error) => Err(stop_at(&error, &mut self.write_faults)),
        }
    }

    fn put(&mut self, piece: &[u8]) -> Result<usize, ShelfStop> {
        match &mut self.output {
            Some(output) => match write_some(&mut output.file, piece) {
                Ok(n) => Ok(n),
                Err(error) => Err(stop_at(&error, &mut self.write_faults)),
            },
            None => unreachable!(),
        }
    }
}
