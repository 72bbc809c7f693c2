// The place from which a grid point takes its weight, and the target there: the weight, 0 to 64,
// that brings the decoded colour closest to the texel.
ghost use Rattle.std.specs.Prelude.{◌≡◌, ◌<◌, ◌≤◌, ◌+◌, ◌*◌, ◌/◌, ◌%◌, ◌^◌, ℤ, pos, negsuc, ◌+ℤ◌, ◌-ℤ◌, ◌*ℤ◌, ◌≤ℤ◌, length, IsTrue, IfSome, None};
ghost use Rattle.std.specs.Int.RustNames.{unsigned_abs};
ghost use Rattle.astc_model.specs.Footprints.{is_footprint};
ghost use Rattle.astc_model.specs.Errors.{squared_difference};
ghost use Rattle.astc_model.specs.Targets.{distance, nearer, place_of_point, difference, is_of_plane, length_if, den, quotient};
ghost use Rattle.candidates.specs.NearestPlaces.{TakesNearest};
ghost use Rattle.candidates.specs.Axes.{rise, inverse_of, axis_of, num_on, within, IsAxis};

use crate::sides::side_distance;

// ---- the place

/// Returns the square of the difference of two numbers of at most 255.
pub fn squared_apart(a: u32, b: u32) -> u32
    requires first { a ≤ 255 }
    requires second { b ≤ 255 }
    ensures square { result ≡ squared_difference a b }
    ensures small { result ≤ 65025 }
{
    let apart = a.abs_diff(b);
    apart * apart
}

// The squared distance of place `p` of a block of `W` by `H` texels from point `k` of a grid of `n`
// by `m`, in units that make it an integer.
#[tactic(auto, unfolding(astc_model::specs::Targets::distance, crate::specs::Sides::side_distance))]
fn distance_at<const W: usize, const H: usize>(n: u8, m: u8, k: u8, p: usize) -> u32
    requires footprint { IsTrue (is_footprint W H) }
    requires some_columns { 1 ≤ n }
    requires columns { n ≤ 12 }
    requires some_rows { 1 ≤ m }
    requires rows { m ≤ 12 }
    requires point { k < n * m }
    requires place { p < W * H }
    ensures { result ≡ distance W H n m (k % n) (k / n) (p % W) (p / W) }
{
    side_distance(W as u8, n, m, k % n, (p % W) as u8)
        + side_distance(H as u8, m, n, k / n, (p / W) as u8)
}

// The one of place `p` and the closest place so far that is closer to point `k`.
fn nearer<const W: usize, const H: usize>(
    n: u8,
    m: u8,
    k: u8,
    p: usize,
    best: Option<usize>,
) -> Option<usize>
    requires footprint { IsTrue (is_footprint W H) }
    requires some_columns { 1 ≤ n }
    requires columns { n ≤ 12 }
    requires some_rows { 1 ≤ m }
    requires rows { m ≤ 12 }
    requires point { k < n * m }
    requires place { p < W * H }
    requires best { IfSome best (λ q. q < W * H) }
    ensures nearer { result ≡ nearer (λ q. distance W H n m (k % n) (k / n) (q % W) (q / W)) p
        best }
    ensures within { IfSome result (λ q. q < W * H) }
{
    match best {
        None => Some(p),
        Some(q) => {
            if distance_at::<W, H>(n, m, k, p) < distance_at::<W, H>(n, m, k, q) {
                Some(p)
            } else {
                Some(q)
            }
        }
    }
}

/// Returns the place from which point `k` of a grid of `n` by `m` takes its weight: the closest
/// place inside the image; at a tie the one with the least y, then the least x. None if no place is
/// inside.
#[tactic(auto, unfolding(astc_model::specs::Targets::place_of_point), using(crate::proofs::TargetLaws::nearest_inside_more))]
pub fn place_of_point<const W: usize, const H: usize>(
    n: u8,
    m: u8,
    places: &[Option<[u8; 4]>],
    k: u8,
) -> Option<usize>
    requires footprint { IsTrue (is_footprint W H) }
    requires some_columns { 1 ≤ n }
    requires columns { n ≤ 12 }
    requires some_rows { 1 ≤ m }
    requires rows { m ≤ 12 }
    requires point { k < n * m }
    requires places { length places.now ≡ W * H }
    ensures place { result ≡ place_of_point W H n m places.now k }
    ensures nearest { TakesNearest W H n m places.now k result }
    ensures within { IfSome result (λ p. p < W * H) }
{
    let mut best = None;
    for p in 0..W * H {
        if places[p].is_some() {
            best = nearer::<W, H>(n, m, k, p, best);
        }
    }
    best
}

// ---- the target

// The signed difference a - b.
#[inline(always)]
#[tactic(auto, using(crate::proofs::TargetLaws::abs_difference))]
fn apart(a: u8, b: u8) -> i32
    ensures value { result ≡ difference a b }
    ensures small { unsigned_abs result ≤ 255 }
{
    i32::from(a) - i32::from(b)
}

// The product of two numbers of -255 to 255.
#[inline(always)]
fn product(a: i32, b: i32) -> i32
    requires first { unsigned_abs a ≤ 255 }
    requires second { unsigned_abs b ≤ 255 }
    ensures value { result ≡ a *ℤ b }
    ensures low { negsuc 65024 ≤ℤ result }
    ensures high { result ≤ℤ pos 65025 }
{
    a * b
}

fn is_of_plane(component: u8, plane: u8, c: u8) -> bool
    requires { c < 4 }
    ensures { result ≡ is_of_plane component plane c }
{
    if component == c + 1 {
        plane == 1
    } else {
        plane == 0
    }
}

fn length_if(counts: bool, e0: &[u8; 4], e1: &[u8; 4], c: usize) -> u32
    requires { c < 4 }
    ensures value { result ≡ length_if counts e0.now e1.now c }
    ensures small { result ≤ 65025 }
{
    if counts {
        squared_apart(u32::from(e1[c]), u32::from(e0[c]))
    } else {
        0
    }
}

#[inline(always)]
fn sum_of_four(a: i32, b: i32, c: i32, d: i32) -> i32
    requires a_low { negsuc 65024 ≤ℤ a }
    requires a_high { a ≤ℤ pos 65025 }
    requires b_low { negsuc 65024 ≤ℤ b }
    requires b_high { b ≤ℤ pos 65025 }
    requires c_low { negsuc 65024 ≤ℤ c }
    requires c_high { c ≤ℤ pos 65025 }
    requires d_low { negsuc 65024 ≤ℤ d }
    requires d_high { d ≤ℤ pos 65025 }
    ensures sum { result ≡ a +ℤ b +ℤ c +ℤ d }
    ensures high { result ≤ℤ pos 260100 }
{
    a + b + c + d
}

#[tactic(auto, unfolding(astc_model::specs::Targets::den))]
fn den(component: u8, plane: u8, e0: &[u8; 4], e1: &[u8; 4]) -> u32
    ensures den { result ≡ den component plane e0.now e1.now }
    ensures small { result ≤ 260100 }
{
    length_if(is_of_plane(component, plane, 0), e0, e1, 0)
        + length_if(is_of_plane(component, plane, 1), e0, e1, 1)
        + length_if(is_of_plane(component, plane, 2), e0, e1, 2)
        + length_if(is_of_plane(component, plane, 3), e0, e1, 3)
}

/// The line between the two endpoints of a partition, over the channels of one plane, as the
/// targets of its texels need it.
#[derive(Clone, Copy)]
pub struct Axis {
    /// The first endpoint of the partition.
    pub first: [u8; 4],
    /// The difference from the first endpoint to the second in each channel; 0 for the channels of
    /// the other plane.
    pub red: i32,
    pub green: i32,
    pub blue: i32,
    pub alpha: i32,
    /// The squared distance of the endpoints over the channels of the plane.
    pub length: u32,
    /// 2^46 / `length`, rounded down, plus 1.
    pub inverse: u64,
}

// The difference from the first endpoint to the second in channel `c`, or 0 if the channel belongs
// to the other plane.
fn rise(counts: bool, e0: &[u8; 4], e1: &[u8; 4], c: usize) -> i32
    requires { c < 4 }
    ensures value { result ≡ rise counts e0.now e1.now c }
    ensures small { unsigned_abs result ≤ 255 }
{
    if counts { apart(e1[c], e0[c]) } else { 0 }
}

// 2^46 / `length`, rounded down, plus 1; `length` counts as at least 1.
fn inverse_of(length: u32) -> u64
    ensures { result ≡ inverse_of length }
{
    (1u64 << 46) / u64::from(length.max(1)) + 1
}

/// Returns the axis between two endpoints for the channels of plane 0 or 1. `component` is the
/// channel of the second plane, 1 to 4, or 0.
#[tactic(auto, unfolding(crate::specs::Axes::axis_of))]
pub fn axis_of(component: u8, plane: u8, ends: &([u8; 4], [u8; 4])) -> Axis
    ensures exact { result ≡ axis_of component plane ends.now }
    ensures axis { IsAxis result }
{
    let (e0, e1) = ends;
    let length = den(component, plane, e0, e1);
    Axis {
        first: *e0,
        red: rise(is_of_plane(component, plane, 0), e0, e1, 0),
        green: rise(is_of_plane(component, plane, 1), e0, e1, 1),
        blue: rise(is_of_plane(component, plane, 2), e0, e1, 2),
        alpha: rise(is_of_plane(component, plane, 3), e0, e1, 3),
        length,
        inverse: inverse_of(length),
    }
}

// The term of a channel in the scalar product of a texel with the axis.
#[inline(always)]
fn along(q: u8, first: u8, rise: i32) -> i32
    requires { unsigned_abs rise ≤ 255 }
    ensures value { result ≡ difference q first *ℤ rise }
    ensures low { negsuc 65024 ≤ℤ result }
    ensures high { result ≤ℤ pos 65025 }
{
    product(apart(q, first), rise)
}

// The scalar product of a texel, relative to the first endpoint, with the axis.
#[inline(always)]
fn num(axis: &Axis, q: &[u8; 4]) -> i32
    requires { IsAxis axis.now }
    ensures num { result ≡ num_on axis.now q.now }
    ensures high { result ≤ℤ pos 260100 }
{
    sum_of_four(
        along(q[0], axis.first[0], axis.red),
        along(q[1], axis.first[1], axis.green),
        along(q[2], axis.first[2], axis.blue),
        along(q[3], axis.first[3], axis.alpha),
    )
}

// n / d, rounded down, by a product with the inverse of d. The contract has the range in which the
// result is exact.
#[inline(always)]
fn divided(n: u64, d: u64, inverse: u64) -> u64
    requires some { 0 < d }
    requires d { d ≤ 260100 }
    requires n { n ≤ 65 * d }
    requires inverse { inverse ≡ 2 ^ 46 / d + 1 }
    ensures { result ≡ n / d }
{
    (n * inverse) >> 46
}

// The number clamped to 0 to `most`.
#[inline(always)]
fn within(n: i32, most: u32) -> u64
    requires { most ≤ 260100 }
    ensures { result ≡ within n most }
{
    n.clamp(0, most as i32) as u64
}

// 64 * n / `length`, rounded half up and clamped to 0 to 64.
#[inline(always)]
fn quotient(n: i32, length: u32, inverse: u64) -> u8
    requires length { length ≤ 260100 }
    requires inverse { inverse ≡ inverse_of length }
    ensures quotient { result ≡ quotient n length }
    ensures small { result ≤ 64 }
{
    let n = 64 * within(n, length) + u64::from(length / 2);
    divided(n, u64::from(length.max(1)), inverse) as u8
}

/// Returns the target of a texel on the axis of its partition: the weight, 0 to 64, whose point on
/// the axis is closest to the texel.
#[inline(always)]
pub fn target(axis: &Axis, q: &[u8; 4]) -> u8
    requires { IsAxis axis.now }
    ensures target { result ≡ quotient (num_on axis.now q.now) axis.now.length }
    ensures small { result ≤ 64 }
{
    quotient(num(axis, q), axis.length, axis.inverse)
}

/// Returns the target of a texel, 0 to 64, from two scalar products with the axis of its partition:
/// `reach` that of the texel, `start` that of the first endpoint.
#[inline(always)]
pub fn target_along(axis: &Axis, reach: u32, start: u32) -> u8
    requires axis { IsAxis axis.now }
    requires reach { reach ≤ 260100 }
    requires start { start ≤ 260100 }
    ensures target { result ≡ quotient (pos reach -ℤ pos start) axis.now.length }
    ensures small { result ≤ 64 }
{
    quotient(reach as i32 - start as i32, axis.length, axis.inverse)
}
