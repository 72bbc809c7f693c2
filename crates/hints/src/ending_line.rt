// The hint for a file with the ending of another kind of file.
use crate::text::Quoted;
use crate::words::CommandForm;
use std::fmt;

/// A kind of file that commands make.
#[derive(Clone, Copy, PartialEq, Eq)]
enum Made {
    Ktx,
    Pam,
    Astc,
}

impl Made {
    // The kind that a command makes, among the kinds whose names have a usual ending.
    fn by(form: CommandForm) -> Option<Made> {
        match form {
            CommandForm::Pack
            | CommandForm::PackKtx
            | CommandForm::Import
            | CommandForm::Join
            | CommandForm::Polish => Some(Made::Ktx),
            CommandForm::Unpack => Some(Made::Pam),
            CommandForm::Export => Some(Made::Astc),
            CommandForm::Part | CommandForm::Audit | CommandForm::Trial => None,
        }
    }

    fn name(self) -> &'static str {
        match self {
            Made::Ktx => "a KTX 1 file",
            Made::Pam => "a PAM file",
            Made::Astc => "an .astc file",
        }
    }

    fn ending(self) -> &'static str {
        match self {
            Made::Ktx => ".ktx",
            Made::Pam => ".pam",
            Made::Astc => ".astc",
        }
    }

    // Whether an ending is known as that of another kind of pictures or textures.
    fn is_not(self, ending: &str) -> bool {
        match ending {
            "ktx" | "KTX" => self != Made::Ktx,
            "pam" | "PAM" => self != Made::Pam,
            "astc" | "ASTC" => self != Made::Astc,
            "basis" | "BASIS" | "bmp" | "BMP" | "dds" | "DDS" | "exr" | "EXR" | "gif" | "GIF" =>
                true,
            "hdr" | "HDR" | "jpeg" | "JPEG" | "jpg" | "JPG" | "ktx2" | "KTX2" | "png" | "PNG" =>
                true,
            "pgm" | "PGM" | "ppm" | "PPM" | "pvr" | "PVR" | "tga" | "TGA" | "webp" | "WEBP" => true,
            "tif" | "TIF" | "tiff" | "TIFF" => true,
            _ => false,
        }
    }
}

/// The kind that a command made, if the name of its output has the ending of another kind of file;
/// else nothing.
#[derive(Drop)]
pub(crate) struct EndingLine<'a> {
    pub(crate) form: CommandForm,
    pub(crate) words: &'a [String],
}

impl EndingLine<'_> {
    // The kind and the name of a file that has another ending than its kind.
    fn misnamed(&self) -> Option<(Made, &str)> {
        let made = Made::by(self.form)?;
        let name = self.words.get(self.form.output()?)?.as_str();
        let (_, ending) = name.rsplit_once('.')?;
        if made.is_not(ending) {
            Some((made, name))
        } else {
            None
        }
    }
}

impl fmt::Display for EndingLine<'_> {
    fn fmt<W: fmt::Write>(&self, f: &mut fmt::Formatter<W>) -> fmt::Result {
        match self.misnamed() {
            Some((made, name)) => {
                let name = Quoted(name);
                let kind = made.name();
                let ending = made.ending();
                writeln!(
                    f,
                    "OUT {name} is {kind}, despite its name: rename it to {ending}"
                )
            }
            None => Ok(()),
        }
    }
}
