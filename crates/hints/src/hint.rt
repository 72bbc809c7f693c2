// The lines that help with an end.
use crate::ending_line::EndingLine;
use crate::fault_lines::{AbsentLine, FaultLines};
use crate::file_line::FileLine;
use crate::quality_line::QualityLine;
use crate::second_look::SeenWord;
use crate::usage_lines::UsageLines;
use crate::words::CommandForm;
use astc_run::{MoreOutcome, Outcome};
use std::fmt;

/// The hint for a word of the command line that is not text.
pub const NO_TEXT: &str = "file names must be UTF-8: rename the file, or pass it as /dev/stdin\n";

const NO_MEMORY: &str =
    "the system refused more memory; check ulimit -v and the container's limit\n";

const NO_REPORT: &str =
    "the report could not be written: is standard output closed, or the disk full?\n";

/// The hints for an end, as lines: the fault of a word, and what may replace it; the reason why a
/// file could not be read or written; the meaning of a fault of a file, and the command that makes
/// a fitting file. After a successful pack or polish, a line with the peak signal-to-noise ratio
/// and the bits per texel; after each successful command, one if the name of its output has the
/// ending of another kind of file.
#[derive(Drop)]
pub struct Hint<'a> {
    pub words: &'a [String],
    pub outcome: &'a MoreOutcome,
    /// The findings of a look at the files after that end.
    pub seen: &'a SeenWord,
    /// The number of the report's last line `total N`.
    pub total: Option<u64>,
}

impl fmt::Display for Hint<'_> {
    fn fmt<W: fmt::Write>(&self, f: &mut fmt::Formatter<W>) -> fmt::Result {
        match (self.outcome, CommandForm::of(self.words)) {
            (MoreOutcome::Common(Outcome::Done), Some(form)) => {
                let quality = QualityLine {
                    form,
                    words: self.words,
                    seen: self.seen,
                    total: self.total,
                };
                let ending = EndingLine {
                    form,
                    words: self.words,
                };
                write!(f, "{quality}{ending}")
            }
            (MoreOutcome::Common(Outcome::Done | Outcome::Found(_)), _) => Ok(()),
            (MoreOutcome::Common(Outcome::Usage(fault)), _) => {
                let lines = UsageLines {
                    words: self.words,
                    fault,
                };
                write!(f, "{lines}")
            }
            (MoreOutcome::Common(Outcome::ReportFault), form) => {
                let lines = ReportLines { form };
                write!(f, "{lines}")
            }
            (MoreOutcome::Common(Outcome::Memory), _) => f.write_str(NO_MEMORY),
            (_, Some(form)) => {
                let lines = FileLines {
                    form,
                    words: self.words,
                    outcome: self.outcome,
                    seen: self.seen,
                };
                write!(f, "{lines}")
            }
            (_, None) => Ok(()),
        }
    }
}

/// The hint for a report that failed.
#[derive(Drop)]
struct ReportLines {
    form: Option<CommandForm>,
}

impl fmt::Display for ReportLines {
    fn fmt<W: fmt::Write>(&self, f: &mut fmt::Formatter<W>) -> fmt::Result {
        f.write_str(NO_REPORT)?;
        match self.form {
            Some(form) if form.output().is_some() => f.write_str("OUT is complete\n"),
            _ => Ok(()),
        }
    }
}

/// The hints for an end that concerns files.
#[derive(Drop)]
struct FileLines<'a> {
    form: CommandForm,
    words: &'a [String],
    outcome: &'a MoreOutcome,
    seen: &'a SeenWord,
}

impl fmt::Display for FileLines<'_> {
    fn fmt<W: fmt::Write>(&self, f: &mut fmt::Formatter<W>) -> fmt::Result {
        match self.outcome {
            MoreOutcome::Common(Outcome::ReadFault | Outcome::WriteFault) => {
                let line = FileLine {
                    form: self.form,
                    words: self.words,
                    seen: self.seen,
                };
                write!(f, "{line}")
            }
            MoreOutcome::Common(Outcome::Absent(place)) => {
                let line = AbsentLine {
                    form: self.form,
                    words: self.words,
                    place: *place,
                    seen: self.seen,
                };
                write!(f, "{line}")
            }
            _ => {
                let lines = FaultLines {
                    form: self.form,
                    words: self.words,
                    outcome: self.outcome,
                    seen: self.seen,
                };
                write!(f, "{lines}")
            }
        }
    }
}
