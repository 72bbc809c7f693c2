/// The profile that a file declares for its colours: linear LDR or sRGB.
#[derive(Clone, Copy, Debug, PartialEq, Eq)]
pub enum Flavour {
    /// All channels are linear.
    Linear,
    /// Red, green and blue are sRGB encoded; alpha is linear.
    Srgb,
}
