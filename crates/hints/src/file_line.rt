// The hint for a file that could not be read or written.
use crate::second_look::SeenWord;
use crate::text::Quoted;
use crate::words::CommandForm;
use file_sights::Look;
use std::fmt;

/// A file by the role of its word and by its name, as `IN 'brick.pam'`.
#[derive(Drop)]
pub(crate) struct NamedFile<'a> {
    pub(crate) form: CommandForm,
    pub(crate) place: usize,
    pub(crate) name: &'a str,
}

impl fmt::Display for NamedFile<'_> {
    fn fmt<W: fmt::Write>(&self, f: &mut fmt::Formatter<W>) -> fmt::Result {
        let name = Quoted(self.name);
        match self.form.role(self.place) {
            Some(role) => {
                let role = role.name();
                write!(f, "{role} {name}")
            }
            None => write!(f, "{name}"),
        }
    }
}

/// The file, and the findings of a second look at it; nothing without a look.
#[derive(Drop)]
pub(crate) struct FileLine<'a> {
    pub(crate) form: CommandForm,
    pub(crate) words: &'a [String],
    pub(crate) seen: &'a SeenWord,
}

impl fmt::Display for FileLine<'_> {
    fn fmt<W: fmt::Write>(&self, f: &mut fmt::Formatter<W>) -> fmt::Result {
        let place = self.seen.place;
        match (self.words.get(place), reason_of(self.seen.sight.look)) {
            (Some(word), Some(reason)) => {
                let file = NamedFile {
                    form: self.form,
                    place,
                    name: word.as_str(),
                };
                writeln!(f, "{file}{reason}")
            }
            _ => Ok(()),
        }
    }
}

fn reason_of(look: Look) -> Option<&'static str> {
    match look {
        Look::Unseen => None,
        Look::Readable => { Some(" can be read now; the earlier read failed") }
        Look::Writable => Some(" can be written to now; the earlier write failed"),
        Look::Missing => Some(": file not found"),
        Look::Uncreated => Some(" cannot be created in its folder"),
        Look::MissingFolder => Some(": folder not found"),
        Look::NoFolder => Some(": part of the path is not a folder"),
        Look::Folder => Some(" is a folder"),
        Look::Stream => Some(" is a pipe or a device, and could not be read to its end"),
        Look::Sink => Some(" is a pipe or a device, and did not accept all output"),
        Look::Denied => Some(": permission denied"),
        Look::NoSpace => Some(": no space left"),
        Look::LongFile => Some(": the file size limit was reached; check ulimit -f"),
        Look::ReadOnly => Some(" is on a read-only file system"),
        Look::Busy => Some(" is a running program"),
        Look::LongName => Some(": the name is too long"),
        Look::Refused => Some(": refused by the system"),
    }
}
