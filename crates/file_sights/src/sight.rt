// The result of a look at a file.

/// The result of a look at a name.
#[derive(Clone, Copy, Debug, PartialEq, Eq)]
pub enum Look {
    /// There was none.
    Unseen,
    /// A file whose first bytes could be read.
    Readable,
    /// A file that could be opened for writing.
    Writable,
    /// The file is missing.
    Missing,
    /// The file is missing, and its folder exists.
    Uncreated,
    /// The file is missing, and so is its folder.
    MissingFolder,
    /// A folder of the path is not a folder.
    NoFolder,
    /// A folder.
    Folder,
    /// A pipe or a device, which is not read.
    Stream,
    /// A pipe or a device, which is not written.
    Sink,
    /// Permission was denied.
    Denied,
    /// A file on a file system that is read only.
    ReadOnly,
    /// A program that runs.
    Busy,
    /// The name is too long.
    LongName,
    /// There is no space left.
    NoSpace,
    /// The file would be longer than it may be.
    LongFile,
    /// Another refusal of the system.
    Refused,
}

/// The result of a look at a name, and the first bytes of a readable file.
#[derive(Clone, Copy)]
pub struct Sight {
    pub look: Look,
    /// The first bytes; those after the end of the file are 0.
    pub front: [u8; 64],
    /// The number of these bytes that the file has.
    pub long: usize,
}

impl Sight {
    /// A look that found no bytes.
    pub fn without_bytes(look: Look) -> Self {
        Sight {
            look,
            front: [0; 64],
            long: 0,
        }
    }
}

/// An object that looks at named files, and changes none.
pub trait Looker {
    /// A look at a file for reading.
    fn input(&self, name: &str) -> Sight;

    /// A look at a file for writing.
    fn output(&self, name: &str) -> Look;
}
