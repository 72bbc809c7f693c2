use thiserror::Error;

/// The fault of the words of a command line. Words are numbered from 0, the command.
#[derive(Clone, Copy, Debug, PartialEq, Eq, Error)]
pub enum UsageFault {
    /// There are no words.
    #[error("no command")]
    NoCommand,
    /// The first word names no command.
    #[error("word 0 is not a command")]
    UnknownCommand,
    /// The command needs a word at this place, and the words end before it.
    #[error("word {0} is missing")]
    MissingWord(u64),
    /// The command has no word at this place.
    #[error("word {0} is not wanted")]
    ExtraWord(u64),
    /// The word is not a number in its range, or an option's value is wrong.
    #[error("word {0} is not a number in range")]
    BadNumber(u64),
    /// The word names no footprint.
    #[error("word {0} is not a footprint")]
    BadFootprint(u64),
    /// The word names no preset.
    #[error("word {0} is not a preset")]
    BadPreset(u64),
    /// The word is not an option of the command.
    #[error("word {0} is not an option")]
    BadOption(u64),
    /// The option was given before.
    #[error("word {0} repeats an option")]
    RepeatedOption(u64),
}
