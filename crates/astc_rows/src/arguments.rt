// The arguments of a call.
ghost use Rattle.std.specs.Prelude.{◌≡◌, ◌≤◌};
ghost use Rattle.astc_rows.specs.Arguments.{number_of, status_of};

/// The rows of blocks of a picture. Rows of blocks are counted from the top, blocks in a row from
/// the left; the last block of a row and the blocks of the last row may extend past the edges of
/// the picture.
#[repr(C)]
#[derive(Clone, Copy, Debug, PartialEq, Eq)]
pub struct Rows {
    /// The width of the picture in texels, 1 to 8192.
    pub width: u32,
    /// The height in texels, 1 to 8192.
    pub height: u32,
    /// The footprint and the flavour: the format's number in OpenGL and KTX, 0x93B0 to 0x93BD
    /// linear, 0x93D0 to 0x93DD sRGB.
    pub format: u32,
    /// The first of the rows, at most the number of all rows of blocks.
    pub first: u32,
    /// The number of rows, at most those from the first on.
    pub count: u32,
}

/// The preset and the weights of a call, and whether blocks are fitted.
#[repr(C)]
#[derive(Clone, Copy, Debug, PartialEq, Eq)]
pub struct RowOptions {
    /// The preset: 0 flat, 1 quick, 2 medium, 3 thorough, 4 pairs.
    pub preset: u32,
    /// The weights of red, green, blue and alpha, 0 to 15 each, not all 0.
    pub weights: [u8; 4],
    /// Whether a block that is fitted to its source counts as a proposal: 0 no, any other number
    /// yes. The sums are smaller, and it takes hardly longer. Audits do not use it.
    pub fitted: u32,
}

/// An argument of a call, in the order in which they are tested.
#[derive(Clone, Copy, Debug, PartialEq, Eq)]
pub enum Argument {
    /// The width is not 1 to 8192.
    Width,
    /// The height is not 1 to 8192.
    Height,
    /// No footprint and flavour has this number.
    Format,
    /// The first row is past the last.
    First,
    /// There are fewer rows from the first on.
    Count,
    /// No preset has this number.
    Preset,
    /// A weight is over 15, or all are 0.
    Weights,
    /// The slice of texels has another length.
    Texels,
    /// The slice of blocks has another length.
    Blocks,
}

impl Argument {
    /// The number of the argument, 1 to 9, in the order of the tests.
    pub fn number(self) -> u32
        ensures same { result ≡ number_of self }
        ensures some { 1 ≤ result }
        ensures most { result ≤ 9 }
    {
        match self {
            Argument::Width => 1,
            Argument::Height => 2,
            Argument::Format => 3,
            Argument::First => 4,
            Argument::Count => 5,
            Argument::Preset => 6,
            Argument::Weights => 7,
            Argument::Texels => 8,
            Argument::Blocks => 9,
        }
    }
}

/// Why a call did nothing.
#[derive(Clone, Copy, Debug, PartialEq, Eq)]
pub enum CallStop {
    /// The first argument that is wrong.
    Wrong(Argument),
    /// Out of memory.
    NoMemory,
}

impl CallStop {
    /// The status for a caller outside Rattle: the argument's number, or 10 if memory ran out.
    pub fn status(self) -> u32
        ensures same { result ≡ status_of self }
        ensures some { 1 ≤ result }
    {
        match self {
            CallStop::Wrong(argument) => argument.number(),
            CallStop::NoMemory => 10,
        }
    }
}
