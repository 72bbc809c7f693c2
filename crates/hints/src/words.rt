// The words of commands, made by packaging/write_texts from packaging/words.py.

/// The text expected instead of an unknown command.
pub(crate) const COMMANDS: &str =
    "expected a command: pack packktx unpack audit polish part join import export trial";

/// The role of a word of a command.
#[derive(Clone, Copy)]
pub(crate) enum Role {
    Input,
    Output,
    Texture,
    Images,
    Part,
    Footprint,
    Preset,
    Number,
    Width,
    Height,
    Level,
    Element,
    Face,
    PartPlace,
    PartCount,
}

impl Role {
    /// The name of the word in the text of `--help`.
    pub(crate) fn name(self) -> &'static str {
        match self {
            Role::Input => "IN",
            Role::Output => "OUT",
            Role::Texture => "FILE",
            Role::Images => "IMAGES",
            Role::Part => "PART",
            Role::Footprint => "FOOTPRINT",
            Role::Preset => "PRESET",
            Role::Number => "NUMBER",
            Role::Width => "WIDTH",
            Role::Height => "HEIGHT",
            Role::Level => "LEVEL",
            Role::Element => "ELEMENT",
            Role::Face => "FACE",
            Role::PartPlace => "PLACE",
            Role::PartCount => "COUNT",
        }
    }

    /// The text expected there.
    pub(crate) fn expected(self) -> &'static str {
        match self {
            Role::Input => "IN, the file to read",
            Role::Output => "OUT, the file to write",
            Role::Texture => "FILE, a KTX file of ASTC blocks",
            Role::Images => "IMAGES, the PAM file to compare the texture with",
            Role::Part => "PART, a file made by astc_tool part; give all parts",
            Role::Footprint => {
                "expected a footprint: 4x4 5x4 5x5 6x5 6x6 8x5 8x6 8x8 10x5 10x6 10x8 10x10 12x10 12x12"
            }
            Role::Preset => "expected a preset: flat quick medium thorough pairs",
            Role::Number => "expected NUMBER, 0 to 4294967295",
            Role::Width => "expected WIDTH, 1 to 1024",
            Role::Height => "expected HEIGHT, 1 to 1024",
            Role::Level => "expected LEVEL, 0 to 13",
            Role::Element => "expected ELEMENT, 0 to 2047",
            Role::Face => "expected FACE, 0 to 5",
            Role::PartPlace => "expected PLACE, 0 to 65535 and less than COUNT",
            Role::PartCount => "expected COUNT, 1 to 65536",
        }
    }
}

/// A command.
#[derive(Clone, Copy, PartialEq, Eq)]
pub(crate) enum CommandForm {
    Pack,
    PackKtx,
    Unpack,
    Audit,
    Polish,
    Part,
    Join,
    Import,
    Export,
    Trial,
}

impl CommandForm {
    /// The word of the command.
    pub(crate) fn name(self) -> &'static str {
        match self {
            CommandForm::Pack => "pack",
            CommandForm::PackKtx => "packktx",
            CommandForm::Unpack => "unpack",
            CommandForm::Audit => "audit",
            CommandForm::Polish => "polish",
            CommandForm::Part => "part",
            CommandForm::Join => "join",
            CommandForm::Import => "import",
            CommandForm::Export => "export",
            CommandForm::Trial => "trial",
        }
    }

    /// The roles of the words after the command, up to the options or, for `join`, the second part.
    pub(crate) fn roles(self) -> &'static [Role] {
        match self {
            CommandForm::Pack => &[Role::Input, Role::Output, Role::Footprint, Role::Preset],
            CommandForm::PackKtx => &[Role::Input, Role::Output, Role::Footprint, Role::Preset],
            CommandForm::Unpack => &[Role::Input, Role::Output],
            CommandForm::Audit => &[Role::Texture, Role::Images, Role::Preset],
            CommandForm::Polish => &[Role::Images, Role::Texture, Role::Output, Role::Preset],
            CommandForm::Part => &[
                Role::Input,
                Role::Output,
                Role::PartPlace,
                Role::PartCount,
                Role::Footprint,
                Role::Preset,
            ],
            CommandForm::Join => &[Role::Output, Role::Part],
            CommandForm::Import => &[Role::Input, Role::Output],
            CommandForm::Export => &[
                Role::Input,
                Role::Output,
                Role::Level,
                Role::Element,
                Role::Face,
            ],
            CommandForm::Trial => &[
                Role::Number,
                Role::Width,
                Role::Height,
                Role::Footprint,
                Role::Preset,
            ],
        }
    }

    /// The place of the word that names the file that the command makes, if it makes one.
    pub(crate) fn output(self) -> Option<usize> {
        match self {
            CommandForm::Pack => Some(2),
            CommandForm::PackKtx => Some(2),
            CommandForm::Unpack => Some(2),
            CommandForm::Audit => None,
            CommandForm::Polish => Some(3),
            CommandForm::Part => Some(2),
            CommandForm::Join => Some(1),
            CommandForm::Import => Some(2),
            CommandForm::Export => Some(2),
            CommandForm::Trial => None,
        }
    }

    /// The end of the usage line, after the words with a name each.
    pub(crate) fn usage_end(self) -> &'static str {
        match self {
            CommandForm::Pack => " [OPTIONS]",
            CommandForm::PackKtx => " [OPTIONS]",
            CommandForm::Unpack => "",
            CommandForm::Audit => " [weights=R,G,B,A]",
            CommandForm::Polish => " [weights=R,G,B,A]",
            CommandForm::Part => " [OPTIONS]",
            CommandForm::Join => " ..",
            CommandForm::Import => " [srgb]",
            CommandForm::Export => "",
            CommandForm::Trial => " [fitted]",
        }
    }

    /// The options that the command takes.
    pub(crate) fn options(self) -> &'static str {
        match self {
            CommandForm::Pack => {
                "expected an option of pack: levels=L levels=full elements=K cube srgb weights=R,G,B,A fitted advised"
            }
            CommandForm::PackKtx => {
                "expected an option of packktx: srgb weights=R,G,B,A fitted advised"
            }
            CommandForm::Unpack => "this command has no options",
            CommandForm::Audit => "the only option of audit is weights=R,G,B,A",
            CommandForm::Polish => "the only option of polish is weights=R,G,B,A",
            CommandForm::Part => {
                "expected an option of part: levels=L levels=full elements=K cube srgb weights=R,G,B,A fitted"
            }
            CommandForm::Join => "this command has no options",
            CommandForm::Import => "the only option of import is srgb",
            CommandForm::Export => "this command has no options",
            CommandForm::Trial => "the only option of trial is fitted",
        }
    }
}
