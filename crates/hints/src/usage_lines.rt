// The hints for words that are not a command.
use crate::text::{Quoted, index};
use crate::words::{COMMANDS, CommandForm};
use astc_model::{FootprintName, Preset};
use astc_words::UsageFault;
use std::fmt;

/// The hint for unknown commands.
const HELP: &str = "see astc_tool --help";

const QUOTES: &str = "a name with spaces needs quotes, as in 'my picture.pam'";

/// The hints for the words of any command line.
#[derive(Drop)]
pub(crate) struct UsageLines<'a> {
    pub(crate) words: &'a [String],
    pub(crate) fault: &'a UsageFault,
}

impl fmt::Display for UsageLines<'_> {
    fn fmt<W: fmt::Write>(&self, f: &mut fmt::Formatter<W>) -> fmt::Result {
        match (CommandForm::of(self.words), self.words.first()) {
            (Some(form), _) => {
                let line = WordLine {
                    form,
                    words: self.words,
                    fault: self.fault,
                };
                writeln!(f, "{line}")?;
                if wants_quotes(form, self.words, self.fault) {
                    writeln!(f, "{QUOTES}")?;
                }
                writeln!(f, "{form}")?;
                if asks_for_help(self.words) {
                    writeln!(f, "{HELP}")?;
                }
                Ok(())
            }
            (None, Some(word)) => {
                let word = Quoted(word.as_str());
                writeln!(f, "word 0, {word}: {COMMANDS}\n{HELP}")
            }
            (None, None) => writeln!(f, "{COMMANDS}\n{HELP}"),
        }
    }
}

/// The fault of a word of a command, and what is expected.
#[derive(Drop)]
struct WordLine<'a> {
    form: CommandForm,
    words: &'a [String],
    fault: &'a UsageFault,
}

impl fmt::Display for WordLine<'_> {
    fn fmt<W: fmt::Write>(&self, f: &mut fmt::Formatter<W>) -> fmt::Result {
        let place = place_of(self.fault);
        let wanted = wanted_by(self.form, self.words, self.fault);
        match self.words.get(index(place)) {
            Some(word) => {
                let word = Quoted(word.as_str());
                write!(f, "word {place}, {word}: {wanted}")
            }
            None => write!(f, "word {place} is missing: {wanted}"),
        }
    }
}

// The place of the word that is wrong.
fn place_of(fault: &UsageFault) -> u64 {
    match *fault {
        UsageFault::NoCommand | UsageFault::UnknownCommand => 0,
        UsageFault::MissingWord(place)
        | UsageFault::ExtraWord(place)
        | UsageFault::BadNumber(place)
        | UsageFault::BadFootprint(place)
        | UsageFault::BadPreset(place)
        | UsageFault::BadOption(place)
        | UsageFault::RepeatedOption(place) => place,
    }
}

// The text expected instead of the wrong word.
fn wanted_by(form: CommandForm, words: &[String], fault: &UsageFault) -> &'static str {
    match fault {
        UsageFault::NoCommand | UsageFault::UnknownCommand => COMMANDS,
        UsageFault::ExtraWord(6) if form == CommandForm::Trial => form.options(),
        UsageFault::ExtraWord(_) => "too many arguments",
        UsageFault::BadOption(_) => form.options(),
        UsageFault::RepeatedOption(_) => "this option was given before",
        UsageFault::MissingWord(place)
        | UsageFault::BadNumber(place)
        | UsageFault::BadFootprint(place)
        | UsageFault::BadPreset(place) => {
            wanted_at(form, index(*place), text_at(words, index(*place)))
        }
    }
}

// The word at a place.
fn text_at(words: &[String], place: usize) -> &str {
    match words.get(place) {
        Some(word) => word.as_str(),
        None => "",
    }
}

// The text expected at a place with the start of an option.
fn wanted_at(form: CommandForm, place: usize, word: &str) -> &'static str {
    match form.role(place) {
        Some(role) => role.expected(),
        None => value_of(word),
    }
}

// The values of an option.
fn value_of(word: &str) -> &'static str {
    if word.starts_with("levels=") {
        "expected levels=1 to levels=14, or levels=full"
    } else if word.starts_with("elements=") {
        "expected elements=1 to elements=2048"
    } else {
        "expected weights=R,G,B,A: four numbers from 0 to 15, not all 0"
    }
}

// Whether the words after a place show that a name before it was split at spaces.
fn wants_quotes(form: CommandForm, words: &[String], fault: &UsageFault) -> bool {
    match *fault {
        UsageFault::ExtraWord(_) => form != CommandForm::Trial,
        UsageFault::BadOption(place) => form == CommandForm::Import
            && place == 3
            && !is_option(text_at(words, index(place))),
        UsageFault::BadNumber(place) => form == CommandForm::Part
            && place < 5
            && has_footprint(words, 6),
        UsageFault::BadFootprint(place) => has_footprint(words, index(place)),
        UsageFault::BadPreset(place) => has_preset(words, index(place)),
        _ => false,
    }
}

// Whether a word is an option of some command.
fn is_option(word: &str) -> bool {
    matches!(word, "cube" | "srgb" | "fitted" | "advised")
        || word.starts_with("levels=")
        || word.starts_with("elements=")
        || word.starts_with("weights=")
}

// Whether a word is one that other programs give help for.
fn asks_for_help(words: &[String]) -> bool {
    words
        .iter()
        .any(|word| matches!(word.as_str(), "-h" | "--help"))
}

// Whether a word from this place on names a footprint.
fn has_footprint(words: &[String], place: usize) -> bool {
    words
        .iter()
        .skip(place)
        .any(|word| FootprintName::from_word(word.as_str()).is_some())
}

// Whether the words from a place on have a preset.
fn has_preset(words: &[String], place: usize) -> bool {
    words
        .iter()
        .skip(place)
        .any(|word| Preset::from_word(word.as_str()).is_some())
}
