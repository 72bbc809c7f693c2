// Why files are not the parts of one texture.
use part_file::PartFault;
use thiserror::Error;

/// Why the named files are not the parts of one texture. Places count words from 0, the command;
/// the files are read in this order.
#[derive(Clone, Copy, Debug, PartialEq, Eq, Error)]
pub enum JoinFault {
    /// The file of the word at this place is not a part, for this reason.
    #[error("word {0}: {1}")]
    NoPart(u64, PartFault),
    /// The file is not of the job of word 2: its texture has another shape or another number of
    /// parts, or its blocks are settled by another preset or other weights, or for other images.
    #[error("word {0}: a part of another texture")]
    OtherTexture(u64),
    /// The file is a part with this place, and so is an earlier file.
    #[error("word {0}: part {1} again")]
    SamePlace(u64, u64),
    /// No file has this place, the first missing one.
    #[error("part {0} is missing")]
    MissingPlace(u64),
}
