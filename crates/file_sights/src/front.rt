// The kinds that files seem to have by their first bytes.
use crate::Sight;
use ktx_file::{KtxFault, header_in};
use std::fmt;

/// The kind that a file seems to have.
#[derive(Clone, Copy, PartialEq, Eq)]
pub enum FileKind {
    Empty,
    Png,
    Jpeg,
    Gif,
    Bmp,
    Tiff,
    Pnm,
    Dds,
    Pam,
    /// A PAM picture whose MAXVAL is this, and not 255.
    OtherPam(u64),
    /// A KTX file of which no more is known.
    Ktx,
    /// A KTX file of ASTC blocks.
    AstcKtx,
    /// An uncompressed KTX file.
    TexelKtx,
    /// A KTX file of blocks in this format, which is not ASTC's.
    OtherKtx(u64),
    Ktx2,
    Astc,
    Part,
    Gzip,
    Unknown,
}

/// The bytes that a file of a kind begins with.
#[derive(Drop)]
struct FileFront {
    bytes: &'static [u8],
    kind: FileKind,
}

static FRONTS: [FileFront; 15] = [
    FileFront {
        bytes: b"\x89PNG\r\n\x1a\n",
        kind: FileKind::Png,
    },
    FileFront {
        bytes: b"\xff\xd8\xff",
        kind: FileKind::Jpeg,
    },
    FileFront {
        bytes: b"GIF8",
        kind: FileKind::Gif,
    },
    FileFront {
        bytes: b"BM",
        kind: FileKind::Bmp,
    },
    FileFront {
        bytes: b"II*\0",
        kind: FileKind::Tiff,
    },
    FileFront {
        bytes: b"MM\0*",
        kind: FileKind::Tiff,
    },
    FileFront {
        bytes: b"P6",
        kind: FileKind::Pnm,
    },
    FileFront {
        bytes: b"P5",
        kind: FileKind::Pnm,
    },
    FileFront {
        bytes: b"DDS ",
        kind: FileKind::Dds,
    },
    FileFront {
        bytes: b"P7",
        kind: FileKind::Pam,
    },
    FileFront {
        bytes: b"\xabKTX 11\xbb\r\n\x1a\n",
        kind: FileKind::Ktx,
    },
    FileFront {
        bytes: b"\xabKTX 20\xbb\r\n\x1a\n",
        kind: FileKind::Ktx2,
    },
    FileFront {
        bytes: b"\x13\xab\xa1\x5c",
        kind: FileKind::Astc,
    },
    FileFront {
        bytes: b"astc_tool part\r\n",
        kind: FileKind::Part,
    },
    FileFront {
        bytes: b"\x1f\x8b",
        kind: FileKind::Gzip,
    },
];

fn kind_by_front(front: &[u8]) -> FileKind {
    for row in &FRONTS {
        if front.starts_with(row.bytes) {
            return row.kind;
        }
    }
    FileKind::Unknown
}

// The contents of a KTX file, by its header.
fn kind_of_ktx(front: &[u8; 64]) -> FileKind {
    match header_in(front) {
        Ok(_) => FileKind::AstcKtx,
        Err(KtxFault::NotCompressed(_, _)) => FileKind::TexelKtx,
        Err(KtxFault::UnknownFormat(format)) => FileKind::OtherKtx(format),
        Err(_) => FileKind::Ktx,
    }
}

/// The kind that a file seems to have, by the first bytes that a look found.
pub fn kind_of(sight: &Sight) -> FileKind {
    if sight.long == 0 {
        return FileKind::Empty;
    }
    match kind_by_front(&sight.front) {
        FileKind::Ktx if sight.long >= 64 => kind_of_ktx(&sight.front),
        kind => kind,
    }
}

// The blocks of a format, by its number in OpenGL.
fn blocks_of(format: u64) -> &'static str {
    match format {
        0x9270..=0x9279 => "ETC2 blocks",
        0x8D64 => "ETC1 blocks",
        0x83F0..=0x83F3 | 0x8C4C..=0x8C4F => "BC1 to BC3 blocks",
        0x8DBB..=0x8DBE => "BC4 or BC5 blocks",
        0x8E8C..=0x8E8F => "BC6H or BC7 blocks",
        0x8C00..=0x8C03 => "PVRTC blocks",
        0x93C0..=0x93C9 | 0x93E0..=0x93E9 => "3D ASTC blocks",
        _ => "another format",
    }
}

impl FileKind {
    fn text(self) -> &'static str {
        match self {
            FileKind::Empty => "an empty file",
            FileKind::Png => "a PNG picture",
            FileKind::Jpeg => "a JPEG picture",
            FileKind::Gif => "a GIF picture",
            FileKind::Bmp => "a BMP picture",
            FileKind::Tiff => "a TIFF picture",
            FileKind::Pnm => "a PPM or PGM picture",
            FileKind::Dds => "a DDS file",
            FileKind::Pam => "a PAM picture",
            FileKind::OtherPam(maxval) if maxval < 255 =>
                "a PAM picture with fewer than 8 bits per channel",
            FileKind::OtherPam(_) => "a PAM picture with 16 bits per channel",
            FileKind::Ktx => "a KTX file",
            FileKind::AstcKtx => "a KTX file of ASTC blocks",
            FileKind::TexelKtx => "an uncompressed KTX file",
            FileKind::OtherKtx(_) => "a KTX file",
            FileKind::Ktx2 => "a KTX 2 file",
            FileKind::Astc => "an .astc file",
            FileKind::Part => "a part file",
            FileKind::Gzip => "a gzip file",
            FileKind::Unknown => "of unknown type",
        }
    }
}

/// For example `looks like a PNG picture`.
impl fmt::Display for FileKind {
    fn fmt<W: fmt::Write>(&self, f: &mut fmt::Formatter<W>) -> fmt::Result {
        let text = self.text();
        match *self {
            FileKind::Empty | FileKind::Unknown => write!(f, "is {text}"),
            FileKind::OtherKtx(format) => {
                let blocks = blocks_of(format);
                write!(f, "looks like {text} of {blocks}")
            }
            _ => write!(f, "looks like {text}"),
        }
    }
}
