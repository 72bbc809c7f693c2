/// How texels are stored: channels of eight bits.
#[derive(Clone, Copy, Debug, PartialEq, Eq)]
pub enum Format {
    /// Red, green and blue. Alpha is 255.
    Rgb8,
    /// Red, green, blue and alpha.
    Rgba8,
}
