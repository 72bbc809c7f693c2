// The contents of a block, independent of their encoding in 16 bytes.
ghost use Rattle.std.specs.Prelude.{◌≡◌};
ghost use Rattle.astc_model.specs.Blocks.{blank_block};

use arrayvec::ArrayVec;

/// The contents of a void-extent block, which shows one colour (Khronos Data Format Specification,
/// ASTC, "Void-Extent Blocks").
#[derive(Clone, Copy, Debug, PartialEq, Eq)]
pub struct Constant {
    /// Red, green, blue and alpha, 16 bits each.
    pub rgba: [u16; 4],
    /// The extent: the least and greatest s, then the least and greatest t, each below 8192. Four
    /// times 8191 if the block has no extent.
    pub extent: [u16; 4],
}

/// The contents of a coded block, that is, of a block that is not a void extent: partitions, colour
/// integers and a weight grid (Khronos Data Format Specification, ASTC, "Block Layout").
#[derive(Debug, PartialEq, Eq, Drop)]
pub struct Coded {
    /// The block mode, below 2048.
    pub mode: u16,
    /// The number of partitions, 1 to 4.
    pub parts: u8,
    /// The partition index, below 1024; 0 for one partition.
    pub seed: u16,
    /// The CEM selector of several partitions: 0 if all of them have the same endpoint mode; k, 1
    /// to 3, if each has its own, of class k - 1 or k (the class of a mode is a quarter of its
    /// number, rounded down). 0 for one partition.
    pub selector: u8,
    /// The colour endpoint mode of each partition, 0 to 15; 0 for the partitions from `parts` on.
    pub cems: [u8; 4],
    /// The colour integers (not unquantized) of all partitions, those of partition 0 first.
    pub colours: ArrayVec<u8, 18>,
    /// The weight integers (not unquantized), in rows from the top; with two planes, the two
    /// integers of a grid point follow each other.
    pub weights: ArrayVec<u8, 64>,
    /// 0 for one plane of weights. For two planes the colour component selector plus 1: 1 to 4 if
    /// red, green, blue or alpha takes its weights from the second plane.
    pub plane: u8,
}

impl Coded {
    /// Returns an equal block.
    pub fn copy(&self) -> Coded
        ensures { result ≡ self.now }
    {
        Coded {
            mode: self.mode,
            parts: self.parts,
            seed: self.seed,
            selector: self.selector,
            cems: self.cems,
            colours: ArrayVec::try_from(self.colours.as_slice()).unwrap(),
            weights: ArrayVec::try_from(self.weights.as_slice()).unwrap(),
            plane: self.plane,
        }
    }
}

/// The contents of a block, independent of their encoding in 16 bytes.
#[derive(Debug, PartialEq, Eq, Drop)]
pub enum Block {
    /// A void-extent block: one colour for all texels.
    Constant(Constant),
    /// A block with colour endpoints and a weight grid.
    Coded(Coded),
}

impl Block {
    /// Returns an equal block.
    pub fn copy(&self) -> Block
        ensures { result ≡ self.now }
    {
        match self {
            Block::Constant(constant) => Block::Constant(*constant),
            Block::Coded(coded) => Block::Coded(coded.copy()),
        }
    }
}

impl Default for Block {
    ghost is_default = { λ block. block ≡ blank_block };

    /// The default is the void-extent block whose colour values and coordinates are all 0.
    fn default() -> Self {
        Block::Constant(Constant {
            rgba: [0; 4],
            extent: [0; 4],
        })
    }
}

/// The reason why 16 bytes are an illegal encoding in the LDR profile. The variants are in the
/// order in which the faults are tested (Khronos Data Format Specification, ASTC, "Illegal
/// Encodings").
#[derive(Clone, Copy, Debug, PartialEq, Eq)]
pub enum BlockFault {
    /// The block mode is reserved and is not that of a void extent.
    ReservedMode,
    /// The void extent belongs to the HDR profile.
    HdrConstant,
    /// The two reserved bits of the void extent are not both 1.
    ExtentReserved,
    /// A least coordinate of the void extent is not below the greatest, and the four coordinates
    /// are not all 8191.
    ExtentOrder,
    /// The weight grid is wider or higher than the block.
    GridTooLarge,
    /// The weight grid has more than 64 weights over both planes.
    TooManyWeights,
    /// The weights take fewer than 24 or more than 96 bits.
    WeightBits,
    /// The block has two planes of weights and four partitions.
    DualPlaneFour,
    /// The endpoint modes need more than 18 colour integers.
    TooManyColours,
    /// A partition has an endpoint mode of the HDR profile.
    HdrEndpoint,
    /// The bits that are left cannot hold the colour integers even at level 6, the least for
    /// colours.
    ColourBits,
}
