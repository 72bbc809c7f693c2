// Decimal numbers of bytes.
ghost use Rattle.std.specs.Prelude.{◌≡◌, length};
ghost use Rattle.decimal_text.specs.Numbers.{digits_value, number_in};

// The number of the digits, after digits of this value.
fn digits(value: u32, bytes: &[u8]) -> Option<u32>
    ensures { result ≡ digits_value value bytes.now }
{
    match bytes {
        [] => Some(value),
        [b @ b'0'..=b'9', rest @ ..] => {
            let longer = 10 * u64::from(value) + u64::from(*b - b'0');
            if longer <= 4_294_967_295 {
                digits(longer as u32, rest)
            } else {
                None
            }
        }
        _ => None,
    }
}

/// The number that a text of one to ten ASCII digits writes; leading zeros are allowed. None
/// exactly if the text is another, or the number does not fit 32 bits.
pub fn number_in(bytes: &[u8]) -> Option<u32>
    ensures { result ≡ number_in bytes.now }
{
    if bytes.is_empty() || bytes.len() > 10 {
        return None;
    }
    digits(0, bytes)
}
