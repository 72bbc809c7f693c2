// The words of a command line, by their places.
use crate::words::{CommandForm, Role};
use astc_words::{Command, MoreCommand};
use std::fmt;

fn form_of(command: Command) -> CommandForm {
    match command {
        Command::Pack => CommandForm::Pack,
        Command::Unpack => CommandForm::Unpack,
        Command::Audit => CommandForm::Audit,
        Command::Trial => CommandForm::Trial,
        Command::Import => CommandForm::Import,
        Command::Export => CommandForm::Export,
        Command::PackKtx => CommandForm::PackKtx,
    }
}

fn form_of_more(command: MoreCommand) -> CommandForm {
    match command {
        MoreCommand::Part => CommandForm::Part,
        MoreCommand::Join => CommandForm::Join,
        MoreCommand::Polish => CommandForm::Polish,
    }
}

impl CommandForm {
    /// The command that the words begin with.
    pub(crate) fn of(words: &[String]) -> Option<CommandForm> {
        let word = words.first()?.as_str();
        match Command::from_word(word) {
            Some(command) => Some(form_of(command)),
            None => Some(form_of_more(MoreCommand::from_word(word)?)),
        }
    }

    /// The role of the word at a place; None if the place is an option's, or the command takes no
    /// word there.
    pub(crate) fn role(self, place: usize) -> Option<Role> {
        match self.roles().get(place.checked_sub(1)?) {
            Some(role) => Some(*role),
            None if self == CommandForm::Join => Some(Role::Part),
            None => None,
        }
    }
}

/// The usage line of the command.
impl fmt::Display for CommandForm {
    fn fmt<W: fmt::Write>(&self, f: &mut fmt::Formatter<W>) -> fmt::Result {
        let name = self.name();
        write!(f, "usage: astc_tool {name}")?;
        for role in self.roles() {
            let name = role.name();
            write!(f, " {name}")?;
        }
        f.write_str(self.usage_end())
    }
}
