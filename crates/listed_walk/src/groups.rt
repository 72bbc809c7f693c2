// The candidates of a shape by the level of their colour integers.
use crate::kinds::ModeEntry;
use crate::levels::{Drawing, SourceShape};
use astc_model::Level;

/// Modes that blocks of a shape can have, and that leave the colour integers one level.
#[derive(Clone, Copy)]
pub struct ModeGroup<'a> {
    pub level: Level,
    pub entries: &'a [ModeEntry],
}

/// A group of the modes that blocks of a shape can have.
#[derive(Clone, Copy)]
pub struct ShapeGroup<'a, 'b> {
    pub layout: &'a SourceShape<'a>,
    pub group: ModeGroup<'b>,
}

/// The candidates of a shape with the modes of a group, before they are made.
#[derive(Drop)]
pub struct DrawnGroup<'a> {
    pub group: ModeGroup<'a>,
    /// How far the texels are from the lines between the two colours of their parts, in squares of
    /// 1/8.
    pub distances: u64,
    /// The data to draw the candidates.
    pub drawing: Drawing<'a>,
}
