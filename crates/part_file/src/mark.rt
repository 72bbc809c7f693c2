// The values that parts of one job share.
ghost use Rattle.std.specs.Prelude.{◌≡◌, ◌≤◌, length};
ghost use Rattle.part_file.specs.Marks.{preset_number, mark_of, mark_bytes, mark_in, IsMark};

use crate::piece::word_at;
use astc_model::{ChannelWeights, Preset};

/// The values that the parts of one job share beside the shape of the texture: the settings of
/// their blocks, and the images. No reader checks it.
#[derive(Clone, Copy, Debug, PartialEq, Eq)]
pub struct JobMark {
    /// The number of the preset: 0 for flat, 1 quick, 2 medium, 3 thorough, 4 pairs; plus 16 if
    /// fitted blocks are proposals.
    pub preset: u32,
    /// The weights of red, green, blue and alpha.
    pub weights: [u8; 4],
    /// The digest of the images of all levels.
    pub digest: u64,
}

fn preset_number(preset: Preset) -> u32
    ensures { result ≡ preset_number preset }
{
    match preset {
        Preset::Flat => 0,
        Preset::Quick => 1,
        Preset::Medium => 2,
        Preset::Thorough => 3,
        Preset::Pairs => 4,
    }
}

impl JobMark {
    /// The mark of a job with this preset, with or without fits, and these weights, by the digest
    /// of the images of its levels.
    pub fn new(preset: Preset, fits: bool, weights: ChannelWeights, digest: u64) -> JobMark
        ensures same { result ≡ mark_of preset fits weights digest }
        ensures valid { IsMark result }
    {
        JobMark {
            preset: preset_number(preset) + if fits { 16 } else { 0 },
            weights: weights.of(),
            digest,
        }
    }
}

/// The 16 bytes of a mark.
pub fn mark_bytes(mark: &JobMark) -> [u8; 16]
    ensures { result ≡ mark_bytes mark.now }
{
    let mut bytes = [0; 16];
    bytes[..4].copy_from_slice(&mark.preset.to_le_bytes());
    bytes[4..8].copy_from_slice(&mark.weights);
    bytes[8..].copy_from_slice(&mark.digest.to_le_bytes());
    bytes
}

/// The mark in the first 16 bytes.
#[tactic(auto, unfolding(crate::specs::Marks::mark_in))]
pub fn mark_in(bytes: &[u8]) -> JobMark
    requires { 16 ≤ length bytes.now }
    ensures same { result ≡ mark_in bytes.now }
    ensures valid { IsMark result }
{
    let mut weights = [0; 4];
    weights.copy_from_slice(&bytes[4..8]);
    let mut digest = [0; 8];
    digest.copy_from_slice(&bytes[8..16]);
    JobMark {
        preset: word_at(bytes, 0),
        weights,
        digest: u64::from_le_bytes(digest),
    }
}
