// Real files, and what the system says where a write fails.
use crate::Look;
use crate::file_looker::look_of;
use std::alloc::Allocator;
use std::cell::Cell;
use std::fs::{Files, Metadata, OpenFile, OpenOptions};
use std::io;
use std::io::{Read, Seek, SeekFrom, Write};

/// The files of a runtime. Why a file could not be created or written to is noted, the last reason
/// alone.
#[derive(Drop)]
pub struct NotedFiles<'a, R: Files + Drop> {
    rt: R,
    noted: &'a Cell<Look>,
}

impl<'a, R: Files + Drop> NotedFiles<'a, R> {
    /// The files of this runtime, whose reasons go there.
    pub fn new(rt: R, noted: &'a Cell<Look>) -> Self {
        NotedFiles { rt, noted }
    }
}

/// A file of such files.
#[derive(Drop)]
pub struct NotedFile<'a, F: Drop> {
    file: F,
    noted: &'a Cell<Look>,
}

impl<F: Read + Drop> Read for NotedFile<'_, F> {
    fn read(&mut self, buf: &mut [u8]) -> io::Result<usize> {
        self.file.read(buf)
    }
}

impl<F: Write + Drop> Write for NotedFile<'_, F> {
    fn write(&mut self, buf: &[u8]) -> io::Result<usize> {
        match self.file.write(buf) {
            Ok(n) => Ok(n),
            Err(error) => {
                self.noted.set(look_of(&error));
                Err(error)
            }
        }
    }

    fn flush(&mut self) -> io::Result<()> {
        self.file.flush()
    }
}

impl<F: Seek + Drop> Seek for NotedFile<'_, F> {
    fn seek(&mut self, to: SeekFrom) -> io::Result<u64> {
        self.file.seek(to)
    }
}

impl<F: OpenFile + Drop> OpenFile for NotedFile<'_, F> {
    fn metadata(&self) -> io::Result<Metadata> {
        self.file.metadata()
    }

    fn set_len(&self, size: u64) -> io::Result<()> {
        self.file.set_len(size)
    }

    fn sync_all(&self) -> io::Result<()> {
        self.file.sync_all()
    }

    fn sync_data(&self) -> io::Result<()> {
        self.file.sync_data()
    }
}

impl<'a, R: Files + Drop> Files for NotedFiles<'a, R> {
    type File = NotedFile<'a, R::File>;

    type Dir = R::Dir;

    fn open_file(&self, how: &OpenOptions, path: &str) -> io::Result<NotedFile<'a, R::File>> {
        match self.rt.open_file(how, path) {
            Ok(file) => Ok(NotedFile {
                file,
                noted: self.noted,
            }),
            Err(error) => {
                if how.asks_write() {
                    self.noted.set(look_of(&error));
                }
                Err(error)
            }
        }
    }

    fn open_dir(&self, path: &str) -> io::Result<R::Dir> {
        self.rt.open_dir(path)
    }

    fn metadata(&self, path: &str) -> io::Result<Metadata> {
        self.rt.metadata(path)
    }

    fn symlink_metadata(&self, path: &str) -> io::Result<Metadata> {
        self.rt.symlink_metadata(path)
    }

    fn copy(&self, from: &str, to: &str) -> io::Result<u64> {
        self.rt.copy(from, to)
    }

    fn rename(&self, from: &str, to: &str) -> io::Result<()> {
        self.rt.rename(from, to)
    }

    fn remove_file(&self, path: &str) -> io::Result<()> {
        self.rt.remove_file(path)
    }

    fn create_dir(&self, path: &str) -> io::Result<()> {
        self.rt.create_dir(path)
    }

    fn remove_dir(&self, path: &str) -> io::Result<()> {
        self.rt.remove_dir(path)
    }

    fn remove_dir_all<B: Allocator>(&self, alloc: B, path: &str) -> io::Result<()> {
        self.rt.remove_dir_all(alloc, path)
    }
}
