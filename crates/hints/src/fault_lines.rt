// The hint for a file that is not of the kind that a command reads.
use crate::file_line::NamedFile;
use crate::second_look::SeenWord;
use crate::sentences::{AstcSentence, SourceSentence, image_sentence, join_sentence, ktx_sentence};
use crate::text::{Quoted, index};
use crate::way_line::WayLine;
use crate::words::{CommandForm, Role};
use astc_run::{JoinFault, MoreOutcome, Outcome};
use file_sights::{FileKind, Look, kind_of};
use ktx_file::header_in;
use pam_image::ImageFault;
use part_file::PartFault;
use std::fmt;
use texture::Shape;

/// The meaning of a fault of a file.
#[derive(Drop)]
struct Sentence<'a> {
    form: CommandForm,
    outcome: &'a MoreOutcome,
}

impl fmt::Display for Sentence<'_> {
    fn fmt<W: fmt::Write>(&self, f: &mut fmt::Formatter<W>) -> fmt::Result {
        match self.outcome {
            MoreOutcome::Common(Outcome::Image(fault)) => {
                f.write_str(image_sentence(fault, self.form))
            }
            MoreOutcome::Common(Outcome::Ktx(fault)) => f.write_str(ktx_sentence(fault)),
            MoreOutcome::Common(Outcome::Astc(fault)) => {
                let sentence = AstcSentence(fault);
                write!(f, "{sentence}")
            }
            MoreOutcome::Common(Outcome::Source(fault)) => {
                let sentence = SourceSentence(fault);
                write!(f, "{sentence}")
            }
            MoreOutcome::Parts(fault) => f.write_str(join_sentence(fault)),
            MoreOutcome::Common(_) => Ok(()),
        }
    }
}

/// The meaning of a fault of a file, the kind that the file seems to have if it is another one, and
/// the command that makes a fitting file.
#[derive(Drop)]
pub(crate) struct FaultLines<'a> {
    pub(crate) form: CommandForm,
    pub(crate) words: &'a [String],
    pub(crate) outcome: &'a MoreOutcome,
    pub(crate) seen: &'a SeenWord,
}

impl fmt::Display for FaultLines<'_> {
    fn fmt<W: fmt::Write>(&self, f: &mut fmt::Formatter<W>) -> fmt::Result {
        let sentence = Sentence {
            form: self.form,
            outcome: self.outcome,
        };
        let place = self.seen.place;
        match self.words.get(place) {
            Some(word) if place > 0 => {
                let name = word.as_str();
                let file = NamedFile {
                    form: self.form,
                    place,
                    name,
                };
                match other_kind(self.outcome, self.seen) {
                    Some(kind) => {
                        let way = WayLine { kind, name };
                        write!(f, "{file}: {sentence}; it {kind}\n{way}")
                    }
                    None => writeln!(f, "{file}: {sentence}"),
                }
            }
            _ => writeln!(f, "{sentence}"),
        }
    }
}

// The kind that a file seems to have, if it is not the expected one.
fn other_kind(outcome: &MoreOutcome, seen: &SeenWord) -> Option<FileKind> {
    if seen.sight.look != Look::Readable {
        return None;
    }
    let kind = kind_of(&seen.sight);
    match outcome {
        MoreOutcome::Common(Outcome::Image(ImageFault::MaxvalNot255(_, maxval))) => {
            Some(FileKind::OtherPam(*maxval))
        }
        _ if is_wanted(outcome, kind) => None,
        _ => Some(kind),
    }
}

// Whether the fault is after the header of a file of the expected kind.
fn is_wanted(outcome: &MoreOutcome, kind: FileKind) -> bool {
    match outcome {
        MoreOutcome::Common(Outcome::Image(_)) => kind == FileKind::Pam,
        MoreOutcome::Common(Outcome::Ktx(_)) => matches!(kind, FileKind::AstcKtx | FileKind::Ktx),
        MoreOutcome::Common(Outcome::Source(_)) => matches!(
            kind,
            FileKind::TexelKtx | FileKind::Ktx
        ),
        MoreOutcome::Common(Outcome::Astc(_)) => kind == FileKind::Astc,
        // These two faults say what else it is.
        MoreOutcome::Parts(JoinFault::NoPart(_, PartFault::WholeTexture | PartFault::Picture)) => {
            true
        }
        _ => kind == FileKind::Part,
    }
}

/// Which numbers of an image a texture has, if a word names one that it hasn't.
#[derive(Drop)]
pub(crate) struct AbsentLine<'a> {
    pub(crate) form: CommandForm,
    pub(crate) words: &'a [String],
    pub(crate) place: u64,
    pub(crate) seen: &'a SeenWord,
}

// The last number of a texture that a word may be.
fn last_of(role: Role, shape: &Shape) -> u32 {
    match role {
        Role::Level => shape.levels.saturating_sub(1),
        Role::Element => shape.elements.saturating_sub(1),
        _ => shape.faces.saturating_sub(1),
    }
}

impl fmt::Display for AbsentLine<'_> {
    fn fmt<W: fmt::Write>(&self, f: &mut fmt::Formatter<W>) -> fmt::Result {
        let at = index(self.place);
        match (
            self.form.role(at),
            self.words.get(at),
            header_in(&self.seen.sight.front),
        ) {
            (Some(role), Some(word), Ok(header)) => {
                let name = role.name();
                let word = Quoted(word.as_str());
                let place = self.place;
                match last_of(role, &header.layout.shape()) {
                    0 => writeln!(f, "word {place}, {word}: {name} must be 0 for this file"),
                    last => writeln!(
                        f,
                        "word {place}, {word}: {name} must be 0 to {last} for this file"
                    ),
                }
            }
            _ => Ok(()),
        }
    }
}
