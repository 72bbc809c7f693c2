use crate::Within;
use astc_model::{ChannelWeights, Flavour, FootprintName, Preset};

/// The number of mip levels that are stored.
#[derive(Clone, Copy, Debug, PartialEq, Eq)]
pub enum Levels {
    /// This number, or the full chain if it has fewer levels.
    Number(Within<1, 14>),
    /// All, down to one texel.
    Full,
}

/// The arguments of a pack.
#[derive(Clone, Copy, Debug, PartialEq, Eq)]
pub struct PackJob {
    pub name: FootprintName,
    pub preset: Preset,
    /// The number of array elements; 0 without an array.
    pub elements: Within<0, 2048>,
    /// Whether the images are the six faces of cubes.
    pub cube: bool,
    pub levels: Levels,
    /// Whether advisers are queried for blocks.
    pub advised: bool,
    /// Whether blocks that are fitted to their sources are proposals, whichever the pool.
    pub fitted: bool,
    /// Whether the texture is of the sRGB flavour.
    pub srgb: bool,
    /// The weight of each channel.
    pub weights: ChannelWeights,
}

/// The preset and the weights of an audit and of a polish.
#[derive(Clone, Copy, Debug, PartialEq, Eq)]
pub struct AuditJob {
    pub preset: Preset,
    /// The weight of each channel.
    pub weights: ChannelWeights,
}

/// The picture of a trial, and the arguments of its pack.
#[derive(Clone, Copy, Debug, PartialEq, Eq)]
pub struct TrialJob {
    /// The picture's number.
    pub number: u32,
    /// The picture's width in texels.
    pub width: Within<1, 1024>,
    /// The picture's height in texels.
    pub height: Within<1, 1024>,
    pub name: FootprintName,
    pub preset: Preset,
    /// Whether blocks that are fitted to their sources are proposals.
    pub fitted: bool,
}

/// Which image of a texture is to be exported.
#[derive(Clone, Copy, Debug, PartialEq, Eq)]
pub struct ExportJob {
    /// 0 to 13.
    pub level: u32,
    /// 0 to 2047.
    pub element: u32,
    /// 0 to 5.
    pub face: u32,
}

/// The job of the words of a command line. The names of files are words 1 and 2.
#[derive(Clone, Copy, Debug, PartialEq, Eq)]
pub enum Job {
    /// Packs images into a texture.
    Pack(PackJob),
    /// Decodes a texture to images.
    Unpack,
    /// Audits a texture against its images.
    Audit(AuditJob),
    /// A picture is made and packed in memory.
    Trial(TrialJob),
    /// Converts a file of one image of blocks to a texture of this flavour.
    Import(Flavour),
    /// Converts an image of a texture to a file.
    Export(ExportJob),
    /// Packs the levels of an uncompressed texture.
    PackKtx(PackJob),
}
