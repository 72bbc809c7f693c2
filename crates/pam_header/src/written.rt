// The header that is written.
ghost use Rattle.std.specs.Prelude.{◌≡◌, ◌≤◌, ◌<◌, ◌+◌, ◌++◌, length};
ghost use Rattle.std.specs.Fmt.{decimal};
ghost use Rattle.pam_header.specs.Written.{header_text};

use arrayvec::ArrayVec;

// Appends a text.
fn push_text(header: &mut ArrayVec<u8, 80>, text: &[u8])
    requires { length header.old.items + length text.now ≤ 80 }
    ensures text { header.new.items ≡ header.old.items ++ text.now }
    ensures size { length header.new.items ≡ length header.old.items + length text.now }
{
    header.try_extend_from_slice(text).unwrap();
}

// Appends a number's digits.
fn push_number(header: &mut ArrayVec<u8, 80>, n: u32)
    requires { length header.old.items + length (decimal n) ≤ 80 }
    ensures { header.new.items ≡ header.old.items ++ decimal n }
{
    if n < 10 {
        header.push(b'0' + n as u8);
    } else {
        push_number(header, n / 10);
        header.push(b'0' + (n % 10) as u8);
    }
}

// Appends the digits of a side, four at most.
fn push_side(header: &mut ArrayVec<u8, 80>, side: u32)
    requires small { side ≤ 8192 }
    requires room { length header.old.items + 4 ≤ 80 }
    ensures digits { header.new.items ≡ header.old.items ++ decimal side }
    ensures size { length header.new.items ≤ length header.old.items + 4 }
{
    push_number(header, side);
}

/// The header of a PAM image of four bytes per texel, red, green, blue and alpha: its lines from
/// `P7` to `ENDHDR`, with `TUPLTYPE RGB_ALPHA`. The sides are in texels.
pub fn pam_header(width: u32, height: u32) -> ArrayVec<u8, 80>
    requires width_some { 1 ≤ width }
    requires width_most { width ≤ 8192 }
    requires height_some { 1 ≤ height }
    requires height_most { height ≤ 8192 }
    ensures { result.items ≡ header_text width height }
{
    let mut header = ArrayVec::new();
    push_text(&mut header, b"P7\nWIDTH ");
    push_side(&mut header, width);
    push_text(&mut header, b"\nHEIGHT ");
    push_side(&mut header, height);
    push_text(
        &mut header,
        b"\nDEPTH 4\nMAXVAL 255\nTUPLTYPE RGB_ALPHA\nENDHDR\n",
    );
    header
}
