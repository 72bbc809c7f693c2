// The fault of a file, in its header and after it.
ghost use Rattle.std.specs.Prelude.{◌≡◌};
ghost use Rattle.tex_shelf.specs.declared.stop.Stop.TheVariants.{Fault as IsFault};

use tex_shelf::Stop;

/// The fault of a header, in the order of the tests.
#[derive(Clone, Copy, Debug, PartialEq, Eq)]
pub enum HeaderFault {
    /// The file has this number of bytes, fewer than 64.
    ShortHeader(u64),
    /// The first byte of the identifier that differs.
    BadIdentifier(u64),
    /// The endianness, read with its low byte first.
    BadEndian(u64),
    /// Width and height, of which one is not 1 to 8192.
    BadSides(u64, u64),
    /// The depth, over 1.
    HasDepth(u64),
    /// The array elements, over 2048.
    TooManyElements(u64),
    /// The faces, neither 1 nor 6.
    BadFaces(u64),
    /// Width and height of six faces, which differ.
    FacesNotSquare(u64, u64),
    /// The levels, over those of the full chain.
    TooManyLevels(u64),
    /// The bytes of keys, over 1,048,576.
    KeysTooLong(u64),
    /// The texels of level 0, over 33,554,432.
    TooLarge(u64),
}

/// The fault after a header, in the order of the tests.
#[derive(Clone, Copy, Debug, PartialEq, Eq)]
pub enum DataFault {
    /// The imageSize of a level that was found, which differs from the expected one.
    BadImageSize { level: u64, found: u64, wanted: u64 },
    /// The file ends after this number of bytes, 64 or more, inside keys, a size or the data of a
    /// level.
    ShortData(u64),
    /// A byte follows the last level.
    TrailingBytes,
}

impl From<DataFault> for Stop<DataFault> {
    ghost from_gives = { λ fault now. now ≡ IsFault fault };

    fn from(fault: DataFault) -> Self {
        Stop::Fault(fault)
    }
}
