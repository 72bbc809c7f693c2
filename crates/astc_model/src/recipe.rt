/// A recipe for a block: the block mode, planes, partitions and endpoint mode of the block, and how
/// its colours are taken from a source. A preset is a list of recipes.
#[derive(Clone, Copy, Debug, PartialEq, Eq)]
pub struct Recipe {
    /// The block mode, below 2048.
    pub mode: u16,
    /// 0 for one plane of weights; 1 to 4 if red, green, blue or alpha takes its weights from the
    /// second plane.
    pub plane: u8,
    /// The number of partitions, 1 to 4.
    pub parts: u8,
    /// The partition index, below 1024.
    pub seed: u16,
    /// The colour endpoint mode of all partitions, below 16.
    pub cem: u8,
    /// Bits 0, 1 and 2 exchange the two ends of red, green and blue, so that a channel falls along
    /// the line of colours while others rise. Only endpoint modes 8 and 12 use them.
    pub flip: u8,
}
