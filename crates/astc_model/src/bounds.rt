/// The least and the greatest value of each channel over a set of texels.
#[derive(Clone, Copy, Debug, Default, PartialEq, Eq)]
pub struct Box8 {
    /// The least values, in the order red, green, blue, alpha.
    pub lo: [u8; 4],
    /// The greatest values, in the order red, green, blue, alpha.
    pub hi: [u8; 4],
}
