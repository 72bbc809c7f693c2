// A look at real files.
use crate::{Look, Looker, Sight};
use std::fs::{Files, OpenOptions};
use std::io::{ErrorKind, Read};
use std::{fs, io};

/// Looks at real files. A path that is neither a file nor a folder is not opened, since that may
/// wait or remove bytes.
#[derive(Drop)]
pub struct FileLooker<'a, R: Files> {
    rt: &'a R,
}

impl<'a, R: Files> FileLooker<'a, R> {
    /// Looks through this runtime.
    pub fn new(rt: &'a R) -> Self {
        FileLooker { rt }
    }

    // The first bytes of a file.
    fn front(&self, name: &str) -> io::Result<Sight> {
        let mut front = [0; 64];
        let mut file = fs::open(self.rt, name)?;
        let long = file.read(&mut front)?;
        Ok(Sight {
            look: Look::Readable,
            front,
            long,
        })
    }

    // Whether a file can be opened for writing. Not a byte of it changes.
    fn try_to_write(&self, name: &str) -> Look {
        match OpenOptions::new().write(true).open(self.rt, name) {
            Ok(_) => Look::Writable,
            Err(error) => look_of(&error),
        }
    }

    // The obstacle to making a missing file.
    fn folder_of(&self, name: &str) -> Look {
        let folder = match name.rsplit_once('/') {
            Some(("", _)) => "/",
            Some((folder, _)) => folder,
            None => ".",
        };
        match fs::metadata(self.rt, folder) {
            Ok(data) if data.is_dir() => Look::Uncreated,
            Ok(_) => Look::NoFolder,
            Err(error) if error.kind() == ErrorKind::NotFound => Look::MissingFolder,
            Err(error) => look_of(&error),
        }
    }
}

/// The look that an error of the system means.
pub(crate) fn look_of(error: &io::Error) -> Look {
    match error.kind() {
        ErrorKind::NotFound => Look::Missing,
        ErrorKind::NotADirectory => Look::NoFolder,
        ErrorKind::IsADirectory => Look::Folder,
        ErrorKind::PermissionDenied => Look::Denied,
        ErrorKind::ReadOnlyFilesystem => Look::ReadOnly,
        ErrorKind::ExecutableFileBusy => Look::Busy,
        ErrorKind::StorageFull | ErrorKind::QuotaExceeded => Look::NoSpace,
        ErrorKind::FileTooLarge => Look::LongFile,
        ErrorKind::InvalidFilename => Look::LongName,
        _ => Look::Refused,
    }
}

impl<R: Files> Looker for FileLooker<'_, R> {
    fn input(&self, name: &str) -> Sight {
        match fs::metadata(self.rt, name) {
            Ok(data) if data.is_dir() => Sight::without_bytes(Look::Folder),
            Ok(data) if !data.is_file() => Sight::without_bytes(Look::Stream),
            Ok(_) => match self.front(name) {
                Ok(sight) => sight,
                Err(error) => Sight::without_bytes(look_of(&error)),
            },
            Err(error) => Sight::without_bytes(look_of(&error)),
        }
    }

    fn output(&self, name: &str) -> Look {
        match fs::metadata(self.rt, name) {
            Ok(data) if data.is_dir() => Look::Folder,
            Ok(data) if data.is_file() => self.try_to_write(name),
            Ok(_) => Look::Sink,
            Err(error) if error.kind() == ErrorKind::NotFound => self.folder_of(name),
            Err(error) => look_of(&error),
        }
    }
}
