// Lower bounds that were computed by hand.
ghost use Rattle.std.specs.Prelude.{◌≤◌};

use astc_model::{ChannelWeights, Flavour, Footprint, Source};
use line_floors::{Cutoff, distances, sums_of, weight_of};
use texel_error::Goal;

// A source of one colour; the first `outside` places of the first row lie outside the image.
fn filled(wanted: [u8; 4], outside: u8) -> Source<4, 4>
    requires { outside ≤ 4 }
{
    let mut source = Source::new(Footprint::<4, 4>::new());
    for x in outside..4 {
        source.set(x, 0, wanted);
    }
    for y in 1..4u8 {
        for x in 0..4u8 {
            source.set(x, y, wanted);
        }
    }
    source
}

// Whether the bound shows an error of at least `limit` for 4 by 4 texels of one colour, of which
// the first `outside` lie outside the image, in a block with these endpoints.
fn is_over(
    flavour: Flavour,
    component: u8,
    colours: &[([u8; 4], [u8; 4]); 1],
    wanted: [u8; 4],
    outside: u8,
    limit: u32,
) -> bool
    requires component { component ≤ 4 }
    requires outside { outside ≤ 4 }
{
    let source = filled(wanted, outside);
    let goal = Goal::new(flavour, ChannelWeights::even(), &source);
    let sums = sums_of(&goal, &[0; 16]);
    let far = distances(&goal, component, &sums, colours, u64::MAX);
    Cutoff::of(weight_of(goal.weights(), component, &sums), limit).is_over(far)
}

const BLACK: [u8; 4] = [0, 0, 0, 255];

const GREY: [u8; 4] = [51, 51, 51, 255];

const WHITE: [u8; 4] = [255, 255, 255, 255];

const RED: [u8; 4] = [255, 0, 0, 255];

const CLEAR: [u8; 4] = [255, 255, 255, 0];

#[test]
fn red_from_the_greys(rt: HostRuntime) {
    // the squared distance of red from the line of the greys is two thirds of 255^2, so the least
    // error is 16 * 43350 = 693600
    for flavour in [Flavour::Linear, Flavour::Srgb] {
        assert!(rt; is_over(flavour, 0, &[(BLACK, WHITE)], RED, 0, 686_000));
        assert!(rt; is_over(flavour, 0, &[(WHITE, BLACK)], RED, 0, 686_000));
        assert!(rt; !is_over(flavour, 0, &[(BLACK, WHITE)], RED, 0, 693_601));
    }
}

#[test]
fn a_place_outside(rt: HostRuntime) {
    // with 15 texels the least error is 650250
    assert!(rt; is_over(Flavour::Srgb, 0, &[(BLACK, WHITE)], RED, 1, 643_000));
    assert!(rt; !is_over(Flavour::Srgb, 0, &[(BLACK, WHITE)], RED, 1, 650_251));
}

#[test]
fn past_the_second_colour(rt: HostRuntime) {
    // the line extends beyond its endpoints: white lies on the line from black to grey, and red is
    // as far from it as from the whole line of greys
    assert!(rt; !is_over(Flavour::Srgb, 0, &[(BLACK, GREY)], WHITE, 0, 1));
    assert!(rt; !is_over(Flavour::Srgb, 0, &[(GREY, BLACK)], WHITE, 0, 1));
    assert!(rt; is_over(Flavour::Srgb, 0, &[(BLACK, GREY)], RED, 0, 686_000));
}

#[test]
fn one_colour(rt: HostRuntime) {
    // white differs from this grey by 204 in each of three channels: 16 * 3 * 204^2 = 1997568
    for flavour in [Flavour::Linear, Flavour::Srgb] {
        assert!(rt; is_over(flavour, 0, &[(GREY, GREY)], WHITE, 0, 1_986_000));
        assert!(rt; !is_over(flavour, 0, &[(GREY, GREY)], WHITE, 0, 1_997_569));
    }
}

#[test]
fn alpha(rt: HostRuntime) {
    // clear white differs by 255 in alpha from all opaque colours: 16 * 255^2 = 1040400
    for flavour in [Flavour::Linear, Flavour::Srgb] {
        assert!(rt; is_over(flavour, 0, &[(BLACK, WHITE)], CLEAR, 0, 1_028_000));
        assert!(rt; !is_over(flavour, 0, &[(BLACK, WHITE)], CLEAR, 0, 1_040_401));
    }
}

#[test]
fn the_channel_of_a_second_plane(rt: HostRuntime) {
    assert!(rt; !is_over(Flavour::Linear, 1, &[(BLACK, WHITE)], RED, 0, 1));
}

#[test]
fn two_partitions(rt: HostRuntime) {
    // red differs from this grey by 204, 51 and 51, so the least error is 8 * (43350 + 46818) =
    // 721344, of which the first partition has 346800
    let source = filled(RED, 0);
    let goal = Goal::new(Flavour::Srgb, ChannelWeights::even(), &source);
    let sums = sums_of(&goal, &[0, 0, 1, 1, 0, 0, 1, 1, 0, 0, 1, 1, 0, 0, 1, 1]);
    let weight = weight_of(goal.weights(), 0, &sums);
    let both = distances(&goal, 0, &sums, &[(BLACK, WHITE), (GREY, GREY)], u64::MAX);
    assert!(rt; Cutoff::of(weight, 714_000).is_over(both));
    assert!(rt; !Cutoff::of(weight, 721_345).is_over(both));
    // the first partition alone reaches a smaller limit
    let less = Cutoff::of(weight, 300_000);
    let first = distances(
        &goal,
        0,
        &sums,
        &[(BLACK, WHITE), (GREY, GREY)],
        less.distances,
    );
    assert!(rt; less.is_over(first));
    assert!(rt; first < both);
}
