// How blocks are compressed.
use astc_model::{ChannelWeights, Flavour, Preset};

/// The settings for the blocks of a picture: how hard to search, and the measure of errors beside
/// the sources.
#[derive(Clone, Copy, Debug, PartialEq, Eq)]
pub struct Settings {
    pub preset: Preset,
    pub flavour: Flavour,
    /// The weight of each channel.
    pub weights: ChannelWeights,
    /// Whether a block that is fitted to the source counts as a proposal.
    pub fits: bool,
}
