// The commands by their names.
ghost use Rattle.std.specs.Prelude.{◌≡◌};
ghost use Rattle.astc_words.specs.Commands.{command_of, other_command};

/// A command by its name.
#[derive(Clone, Copy, Debug, PartialEq, Eq)]
pub enum Command {
    Pack,
    Unpack,
    Audit,
    Trial,
    Import,
    Export,
    PackKtx,
}

impl Command {
    /// The command that a word such as `pack` names; None exactly if it names none.
    pub fn from_word(word: &str) -> Option<Command>
        ensures { result ≡ command_of word.now }
    {
        if word == "pack" {
            return Some(Command::Pack);
        }
        if word == "unpack" {
            return Some(Command::Unpack);
        }
        if word == "audit" {
            return Some(Command::Audit);
        }
        if word == "trial" {
            return Some(Command::Trial);
        }
        other_command(word)
    }
}

// The commands on files of other programs.
fn other_command(word: &str) -> Option<Command>
    ensures { result ≡ other_command word.now }
{
    if word == "import" {
        return Some(Command::Import);
    }
    if word == "export" {
        return Some(Command::Export);
    }
    if word == "packktx" {
        return Some(Command::PackKtx);
    }
    None
}
