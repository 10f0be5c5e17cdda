//! The usual limits, the ends of the ranges, and the facets of a label counted against its limits.

use label_lattice::Label;
use label_limits::{LimitError, Limits, Meter};
use std::test::Fail;

/// Six numbers, and the first of them that is outside its range, counted from 1; 0 where all are in it.
static NUMBERS: [([i64; 6], u32); 21] = [
    ([1, 1, 0, 1, 0, 0], 0),
    (
        [
            1_000_000,
            1_000_000_000,
            65_536,
            65_536,
            1_000_000,
            1_073_741_824,
        ],
        0,
    ),
    ([10_000, 10_000_000, 256, 1_024, 100_000, 67_108_864], 0),
    ([0, 1, 0, 1, 0, 0], 1),
    ([1_000_001, 1, 0, 1, 0, 0], 1),
    ([1, 0, 0, 1, 0, 0], 2),
    ([1, 1_000_000_001, 0, 1, 0, 0], 2),
    ([1, 1, -1, 1, 0, 0], 3),
    ([1, 1, 65_537, 1, 0, 0], 3),
    ([1, 1, 0, 0, 0, 0], 4),
    ([1, 1, 0, 65_537, 0, 0], 4),
    ([1, 1, 0, 1, -1, 0], 5),
    ([1, 1, 0, 1, 1_000_001, 0], 5),
    ([1, 1, 0, 1, 0, -1], 6),
    ([1, 1, 0, 1, 0, 1_073_741_825], 6),
    ([0, 0, -1, 0, -1, -1], 1),
    ([1, 1_000_000_001, -1, 1, 0, 0], 2),
    ([1, 1, 65_537, 0, 0, 0], 3),
    ([1, 1, 0, i64::MIN, 1_000_001, 0], 4),
    ([1, 1, 0, 1, 4_294_967_297, -5], 5),
    ([1, 1, 0, 1, 0, i64::MAX], 6),
];

/// The first number outside its range, or 0 where the limits have these numbers.
fn outside(numbers: [i64; 6]) -> u32 {
    match Limits::checked(numbers) {
        Ok(limits) if numbers_of(limits) == numbers => 0,
        Ok(_) => 7,
        Err(LimitError::OutOfRange(which)) => which as u32,
    }
}

fn numbers_of(limits: Limits) -> [i64; 6] {
    [
        limits.quantum as i64,
        limits.fuel as i64,
        limits.pages as i64,
        limits.queue as i64,
        limits.facets as i64,
        limits.bytes as i64,
    ]
}

#[test]
fn numbers_are_limits_up_to_the_ends_of_their_ranges(rt: HostRuntime) {
    let mut all = true;
    for (numbers, which) in &NUMBERS {
        all = all && outside(*numbers) == *which;
    }
    assert!(rt; all);
}

#[test]
fn the_usual_limits(rt: HostRuntime) {
    let usual = [10_000, 10_000_000, 256, 1_024, 100_000, 67_108_864];
    assert!(rt; numbers_of(Limits::usual()) == usual);
}

#[test]
fn the_facets_of_a_label_are_counted_against_its_limits(rt: HostRuntime) -> Result<(), Fail> {
    let mut low = Limits::usual();
    low.facets = 2;
    low.bytes = 5;
    let limits = [low, Limits::usual()];
    let mut meter = Meter::new(rt.alloc(), &limits)?;
    let (low, alice) = (Label::numbered(0), Label::numbered(1));
    assert!(rt; meter.fits(low, None, 5));
    assert!(rt; !meter.fits(low, None, 6));
    meter.charge(low, None, 3);
    assert!(rt; !meter.fits(low, None, 3));
    assert!(rt; meter.fits(low, Some(3), 5));
    assert!(rt; meter.fits(low, None, 2));
    meter.charge(low, None, 2);
    assert!(rt; !meter.fits(low, None, 0));
    assert!(rt; meter.fits(low, Some(2), 0));
    assert!(rt; meter.fits(alice, None, 6));
    Ok(())
}
