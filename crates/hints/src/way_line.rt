// The command that makes a fitting file of one that does not fit.
use crate::text::InShell;
use file_sights::FileKind;
use std::fmt;

/// How to make a file that fits of a file of a kind, as a line, or nothing.
#[derive(Drop)]
pub(crate) struct WayLine<'a> {
    pub(crate) kind: FileKind,
    pub(crate) name: &'a str,
}

// The line for a kind of which no command makes a file that fits; nothing for others.
fn advice_on(kind: FileKind) -> &'static str {
    match kind {
        FileKind::OtherKtx(_) => "pack the picture that it was made from\n",
        FileKind::Ktx2 => {
            "pack the picture that it was made from; KTX-Software's ktx extract extracts pictures\n"
        }
        _ => "",
    }
}

impl fmt::Display for WayLine<'_> {
    fn fmt<W: fmt::Write>(&self, f: &mut fmt::Formatter<W>) -> fmt::Result {
        let name = InShell(self.name);
        match self.kind {
            FileKind::Png
            | FileKind::Jpeg
            | FileKind::Gif
            | FileKind::Bmp
            | FileKind::Tiff
            | FileKind::Pnm
            | FileKind::Dds
            | FileKind::OtherPam(_) => writeln!(
                f,
                "to convert it to PAM: ffmpeg -i {name} -update 1 -pix_fmt rgba -c:v pam -f image2 picture.pam"
            ),
            FileKind::Pam => writeln!(
                f,
                "to pack it: astc_tool pack {name} texture.ktx 6x6 quick fitted"
            ),
            FileKind::TexelKtx => writeln!(
                f,
                "to pack it: astc_tool packktx {name} texture.ktx 6x6 quick fitted"
            ),
            FileKind::AstcKtx => writeln!(
                f,
                "to decode it to PAM: astc_tool unpack {name} picture.pam"
            ),
            FileKind::Astc => writeln!(
                f,
                "to convert it to KTX: astc_tool import {name} texture.ktx"
            ),
            FileKind::Part => writeln!(
                f,
                "to join all parts: astc_tool join texture.ktx {name} .."
            ),
            FileKind::Gzip => writeln!(f, "to decompress it: gzip -dc -- {name} > unpacked"),
            FileKind::OtherKtx(_)
            | FileKind::Ktx2
            | FileKind::Ktx
            | FileKind::Empty
            | FileKind::Unknown => { f.write_str(advice_on(self.kind)) }
        }
    }
}
