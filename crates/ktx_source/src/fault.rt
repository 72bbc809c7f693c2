// The fault of a file.
ghost use Rattle.std.specs.Prelude.{◌≡◌};
ghost use Rattle.ktx_source.specs.Faults.{header_fault, data_fault};
ghost use Rattle.tex_shelf.specs.declared.stop.Stop.TheVariants.{Fault as IsFault};

use ktx_header::{DataFault, HeaderFault};
use tex_shelf::Stop;
use thiserror::Error;

/// The fault of a file, in the order of the tests. The first twelve are in the first 64 bytes.
#[derive(Clone, Copy, Debug, PartialEq, Eq, Error)]
pub enum SourceFault {
    /// The file has this number of bytes, fewer than 64.
    #[error("source: fault 1")]
    ShortHeader(u64),
    /// The first byte of the identifier that differs.
    #[error("source: fault 2")]
    BadIdentifier(u64),
    /// The endianness, read with its low byte first.
    #[error("source: fault 3")]
    BadEndian(u64),
    /// glType, glFormat and glInternalFormat, which together are none of the six that are read.
    #[error("source: fault 4")]
    WrongFormat {
        kind: u64,
        format: u64,
        internal: u64,
    },
    /// Width and height, of which one is not 1 to 8192.
    #[error("source: fault 5")]
    BadSides(u64, u64),
    /// The depth, over 1.
    #[error("source: fault 6")]
    HasDepth(u64),
    /// The array elements, over 2048.
    #[error("source: fault 7")]
    TooManyElements(u64),
    /// The faces, neither 1 nor 6.
    #[error("source: fault 8")]
    BadFaces(u64),
    /// Width and height of six faces, which differ.
    #[error("source: fault 9")]
    FacesNotSquare(u64, u64),
    /// The levels, over those of the full chain.
    #[error("source: fault 10")]
    TooManyLevels(u64),
    /// The bytes of keys, over 1,048,576.
    #[error("source: fault 11")]
    KeysTooLong(u64),
    /// The texels of level 0, over 33,554,432.
    #[error("source: fault 12")]
    TooLarge(u64),
    /// The imageSize of a level that was found, which differs from the expected one.
    #[error("source: fault 13")]
    BadImageSize {
        level: u64,
        found: u64,
        wanted: u64,
    },
    /// The file ends after this number of bytes, 64 or more, inside keys, a size or texels.
    #[error("source: fault 14")]
    ShortData(u64),
    /// A byte follows the last texel.
    #[error("source: fault 15")]
    TrailingBytes,
}

impl From<HeaderFault> for SourceFault {
    ghost from_gives = { λ fault source. source ≡ header_fault fault };

    fn from(fault: HeaderFault) -> Self {
        match fault {
            HeaderFault::ShortHeader(n) => SourceFault::ShortHeader(n),
            HeaderFault::BadIdentifier(place) => SourceFault::BadIdentifier(place),
            HeaderFault::BadEndian(n) => SourceFault::BadEndian(n),
            HeaderFault::BadSides(width, height) => SourceFault::BadSides(width, height),
            HeaderFault::HasDepth(n) => SourceFault::HasDepth(n),
            HeaderFault::TooManyElements(n) => SourceFault::TooManyElements(n),
            HeaderFault::BadFaces(n) => SourceFault::BadFaces(n),
            HeaderFault::FacesNotSquare(width, height) => {
                SourceFault::FacesNotSquare(width, height)
            }
            HeaderFault::TooManyLevels(n) => SourceFault::TooManyLevels(n),
            HeaderFault::KeysTooLong(n) => SourceFault::KeysTooLong(n),
            HeaderFault::TooLarge(n) => SourceFault::TooLarge(n),
        }
    }
}

impl From<DataFault> for SourceFault {
    ghost from_gives = { λ fault source. source ≡ data_fault fault };

    fn from(fault: DataFault) -> Self {
        match fault {
            DataFault::BadImageSize {
                level,
                found,
                wanted,
            } => SourceFault::BadImageSize {
                level,
                found,
                wanted,
            },
            DataFault::ShortData(n) => SourceFault::ShortData(n),
            DataFault::TrailingBytes => SourceFault::TrailingBytes,
        }
    }
}

/// Why no file was read.
pub type SourceStop = Stop<SourceFault>;

impl From<SourceFault> for SourceStop {
    ghost from_gives = { λ fault now. now ≡ IsFault fault };

    fn from(fault: SourceFault) -> Self {
        Stop::Fault(fault)
    }
}
