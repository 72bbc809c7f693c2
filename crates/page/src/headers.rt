// The header of a file.
ghost use Rattle.std.specs.Prelude.{◌≡◌, ◌≤◌, ◌<◌, length};
ghost use Rattle.ktx_file.specs.Headers.{header_in};
ghost use Rattle.page.specs.Headers.{told_of, told_fault, of_two, high_first};

use ktx_file::{KtxFault, KtxHeader, header_in};
use ktx_header::WordOrder;

/// The report on a header. After a fault, all but the fault and its numbers is 0.
#[repr(C)]
#[derive(Clone, Copy, Debug, PartialEq, Eq)]
pub struct HeaderTold {
    /// 0, or the number of the first fault, from 1 on in the order in which they are tested.
    pub fault: u32,
    /// 1 if a word's high byte comes first.
    pub is_big: u32,
    /// The format's number in OpenGL.
    pub format: u32,
    pub width: u32,
    pub height: u32,
    /// 0 without an array.
    pub elements: u32,
    pub faces: u32,
    pub levels: u32,
    pub key_bytes: u32,
    /// The two numbers of a fault that has them.
    pub first: u64,
    pub second: u64,
}

fn of_two(fault: u32, first: u64, second: u64) -> HeaderTold
    ensures { result ≡ of_two fault first second }
{
    HeaderTold {
        fault,
        is_big: 0,
        format: 0,
        width: 0,
        height: 0,
        elements: 0,
        faces: 0,
        levels: 0,
        key_bytes: 0,
        first,
        second,
    }
}

// A fault by its place in the order of tests.
fn told_fault(fault: KtxFault) -> HeaderTold
    ensures { result ≡ told_fault fault }
{
    match fault {
        KtxFault::ShortHeader(n) => of_two(1, n, 0),
        KtxFault::BadIdentifier(n) => of_two(2, n, 0),
        KtxFault::BadEndian(n) => of_two(3, n, 0),
        KtxFault::NotCompressed(kind, format) => of_two(4, kind, format),
        KtxFault::UnknownFormat(n) => of_two(5, n, 0),
        KtxFault::BadSides(width, height) => of_two(6, width, height),
        KtxFault::HasDepth(n) => of_two(7, n, 0),
        KtxFault::TooManyElements(n) => of_two(8, n, 0),
        KtxFault::BadFaces(n) => of_two(9, n, 0),
        KtxFault::FacesNotSquare(width, height) => of_two(10, width, height),
        KtxFault::TooManyLevels(n) => of_two(11, n, 0),
        KtxFault::KeysTooLong(n) => of_two(12, n, 0),
        KtxFault::TooLarge(n) => of_two(13, n, 0),
        KtxFault::BadImageSize {
            level: _,
            found,
            wanted,
        } => of_two(14, found, wanted),
        KtxFault::ShortData(n) => of_two(15, n, 0),
        KtxFault::TrailingBytes => of_two(16, 0, 0),
    }
}

// 1 if a word's high byte comes first.
fn high_first(order: WordOrder) -> u32
    ensures { result ≡ high_first order }
{
    match order {
        WordOrder::Little => 0,
        WordOrder::Big => 1,
    }
}

// The report on a header.
fn told_of(header: Result<KtxHeader, KtxFault>) -> HeaderTold
    ensures { result ≡ told_of header }
{
    match header {
        Ok(header) => {
            let shape = header.layout.shape();
            HeaderTold {
                fault: 0,
                is_big: high_first(header.order),
                format: shape.name.gl(shape.flavour),
                width: shape.width,
                height: shape.height,
                elements: shape.elements,
                faces: shape.faces,
                levels: shape.levels,
                key_bytes: header.key_bytes,
                first: 0,
                second: 0,
            }
        }
        Err(fault) => told_fault(fault),
    }
}

/// Writes to `told` the report on the header of a file in the KTX format with ASTC blocks, by its
/// first bytes, and returns 0; 1 for more than 64 bytes: nothing is then written.
#[unsafe(no_mangle)]
pub extern "C" fn page_header(bytes: &[u8], told: &mut HeaderTold) -> u32
    ensures told { length bytes.now ≤ 64 → (result ≡ 0)
        × (told.new ≡ told_of (header_in bytes.now)) }
    ensures refused { 64 < length bytes.now → (result ≡ 1) × (told.new ≡ told.old) }
{
    if bytes.len() > 64 {
        return 1;
    }
    *told = told_of(header_in(bytes));
    0
}
