// The presets of the compressor.
ghost use Rattle.std.specs.Prelude.{◌≡◌, IfSome, IfNone};
ghost use Rattle.astc_model.specs.Presets.{preset_word, Preset};

/// A preset: the list of blocks that the compressor tries for each source, and so its effort. Each
/// block is made by a `Recipe`.
#[derive(Clone, Copy, Debug, PartialEq, Eq)]
pub enum Preset {
    /// Only the void-extent block of the mean colour.
    Flat,
    /// One partition, two endpoint modes (8 and 12), one plane.
    Quick,
    /// The recipes of Quick, and further endpoint modes, flipped channels, alpha in the second
    /// plane, and two partitions.
    Medium,
    /// The recipes of Medium, and the remaining endpoint modes, all ten endpoint modes with each
    /// channel in the second plane, and more partitions and seeds.
    Thorough,
    /// The recipes of Quick; then changes to both ends of a channel at once.
    Pairs,
}

impl Preset {
    /// Returns the preset that a word such as `flat` names; None exactly if the word is not the
    /// name of a preset.
    pub fn from_word(word: &str) -> Option<Preset>
        ensures found { IfSome result (λ preset. word.now ≡ preset_word preset) }
        ensures none { IfNone result ((preset : Preset) → word.now ≡ preset_word preset → ⊥) }
    {
        match word {
            "flat" => Some(Preset::Flat),
            "quick" => Some(Preset::Quick),
            "medium" => Some(Preset::Medium),
            "thorough" => Some(Preset::Thorough),
            "pairs" => Some(Preset::Pairs),
            _ => None,
        }
    }
}
