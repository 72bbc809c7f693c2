// The layout of a block, as fits know it: its partitions and its second plane.
/// The partitions of a block, and the channel of its second plane.
#[derive(Clone, Copy, Default, PartialEq)]
pub struct BlockLayout {
    /// The number of partitions, 1 to 4.
    pub parts: u8,
    pub seed: u16,
    /// 0 for one plane; 1 to 4 for red, green, blue or alpha in the second plane.
    pub plane: u8,
}

/// The layout with one partition and one plane.
pub static WHOLE: BlockLayout = BlockLayout {
    parts: 1,
    seed: 0,
    plane: 0,
};

impl BlockLayout {
    /// Returns the number of planes, 1 or 2.
    pub fn planes(self) -> usize {
        if self.plane == 0 { 1 } else { 2 }
    }

    /// Returns the plane from which a channel (0 to 3) takes its weights, 0 or 1.
    #[inline]
    pub fn plane_of(self, channel: usize) -> usize {
        if usize::from(self.plane) == channel.wrapping_add(1) {
            1
        } else {
            0
        }
    }
}
