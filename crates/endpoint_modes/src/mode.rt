// The colour endpoint modes of the LDR profile.
ghost use Rattle.std.specs.Prelude.{◌≡◌, ◌↔◌, IsSome, IfSome, IsTrue};
ghost use Rattle.astc_model.specs.Endpoints.{is_ldr_mode};
ghost use Rattle.endpoint_modes.specs.Modes.{number_of};

/// A colour endpoint mode of the LDR profile
/// (Khronos Data Format Specification, ASTC, "Color Endpoint Mode").
#[derive(Clone, Copy, Debug, PartialEq, Eq)]
pub enum EndpointMode {
    /// Mode 0: luminance, direct.
    LuminanceDirect,
    /// Mode 1: luminance, base and offset.
    LuminanceBaseOffset,
    /// Mode 4: luminance and alpha, direct.
    LuminanceAlphaDirect,
    /// Mode 5: luminance and alpha, base and signed offset.
    LuminanceAlphaBaseOffset,
    /// Mode 6: RGB, base and scale.
    RgbBaseScale,
    /// Mode 8: RGB, direct.
    RgbDirect,
    /// Mode 9: RGB, base and signed offset.
    RgbBaseOffset,
    /// Mode 10: RGB, base and scale, with two alphas.
    RgbBaseScaleTwoAlpha,
    /// Mode 12: RGBA, direct.
    RgbaDirect,
    /// Mode 13: RGBA, base and signed offset.
    RgbaBaseOffset,
}

impl EndpointMode {
    /// Returns the mode with the number `cem`; None exactly if the number is not a mode of the LDR
    /// profile.
    pub fn of(cem: u8) -> Option<EndpointMode>
        ensures listed { IsSome result ↔ IsTrue (is_ldr_mode cem) }
        ensures same { IfSome result (λ mode. number_of mode ≡ cem) }
    {
        match cem {
            0 => Some(EndpointMode::LuminanceDirect),
            1 => Some(EndpointMode::LuminanceBaseOffset),
            4 => Some(EndpointMode::LuminanceAlphaDirect),
            5 => Some(EndpointMode::LuminanceAlphaBaseOffset),
            6 => Some(EndpointMode::RgbBaseScale),
            8 => Some(EndpointMode::RgbDirect),
            9 => Some(EndpointMode::RgbBaseOffset),
            10 => Some(EndpointMode::RgbBaseScaleTwoAlpha),
            12 => Some(EndpointMode::RgbaDirect),
            13 => Some(EndpointMode::RgbaBaseOffset),
            _ => None,
        }
    }
}
