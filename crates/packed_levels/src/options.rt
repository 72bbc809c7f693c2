use encoder::Settings;

/// How the blocks of a texture are made.
#[derive(Clone, Copy, Debug, PartialEq, Eq)]
pub struct PackOptions {
    pub settings: Settings,
    /// Whether advisers are queried for blocks.
    pub advised: bool,
}
