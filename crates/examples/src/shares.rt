use largest_remainder::LargestRemainder;
use refusals::Refusal;
use running::Running;
use sharing::SharingRule;
use std::process::Abort;

// A total, weights, and the parts by the running rule and by largest remainder.
const SHARES: [(i64, [i64; 3], [i64; 3], [i64; 3]); 9] = [
    (100, [1, 1, 1], [33, 34, 33], [34, 33, 33]),
    (-100, [1, 1, 1], [-33, -34, -33], [-33, -33, -34]),
    (10, [3, -1, 1], [10, -3, 3], [10, -3, 3]),
    (5, [2, 2, 2], [2, 1, 2], [2, 2, 1]),
    (1, [1, 5, 0], [0, 1, 0], [0, 1, 0]),
    (0, [1, 2, 3], [0, 0, 0], [0, 0, 0]),
    (
        30_000_000_000,
        [999_999, 0, 1],
        [29_999_970_000, 0, 30_000],
        [29_999_970_000, 0, 30_000],
    ),
    (
        -30_000_000_000,
        [500_000, -250_000, 250_000],
        [-30_000_000_000, 15_000_000_000, -15_000_000_000],
        [-30_000_000_000, 15_000_000_000, -15_000_000_000],
    ),
    (
        30_000_000_000,
        [500_000, -499_999, 0],
        [15_000_000_000_000_000, -14_999_970_000_000_000, 0],
        [15_000_000_000_000_000, -14_999_970_000_000_000, 0],
    ),
];

// Out of the range: totals past the limit, sizes past the limit, and weight sums below 1.
const REFUSED: [(i64, [i64; 3]); 9] = [
    (30_000_000_001, [1, 1, 1]),
    (-30_000_000_001, [1, 1, 1]),
    (i64::MIN, [1, 1, 1]),
    (i64::MAX, [1, 1, 1]),
    (1, [999_999, 1, 1]),
    (1, [500_001, -500_000, 0]),
    (1, [i64::MAX, i64::MIN, 2]),
    (1, [1, -1, 0]),
    (1, [1, -2, 0]),
];

fn shares_as_listed<S: SharingRule>(
    rt: &impl Abort,
    total: i64,
    weights: [i64; 3],
    expected: [i64; 3],
) {
    let mut parts = [7; 3];
    assert_eq!(rt; S::split(total, &weights, &mut parts), Ok(()));
    assert_eq!(rt; parts, expected);
}

#[test]
fn the_rules_share_as_worked_by_hand(rt: HostRuntime) {
    for (total, weights, running, largest) in SHARES {
        shares_as_listed::<Running>(&rt, total, weights, running);
        shares_as_listed::<LargestRemainder>(&rt, total, weights, largest);
    }
}

fn refuses<S: SharingRule>(rt: &impl Abort, total: i64, weights: [i64; 3]) {
    let mut parts = [7; 3];
    assert_eq!(rt;
        S::split(total, &weights, &mut parts),
        Err(Refusal::OutsideSharingRange)
    );
    assert_eq!(rt; parts, [7; 3]);
}

#[test]
fn outside_the_range_the_parts_stay_as_they_were(rt: HostRuntime) {
    for (total, weights) in REFUSED {
        refuses::<Running>(&rt, total, weights);
        refuses::<LargestRemainder>(&rt, total, weights);
    }
}

// How many weights, how many parts, and the answer.
const COUNTS: [(usize, usize, Result<(), Refusal>); 6] = [
    (1, 1, Ok(())),
    (64, 64, Ok(())),
    (65, 65, Err(Refusal::OutsideSharingRange)),
    (0, 0, Err(Refusal::OutsideSharingRange)),
    (3, 2, Err(Refusal::OutsideSharingRange)),
    (2, 3, Err(Refusal::OutsideSharingRange)),
];

#[test]
fn a_rule_takes_1_to_64_weights_and_as_many_parts(rt: HostRuntime) {
    for (members, parts, answer) in COUNTS {
        assert!(rt; members <= 65 && parts <= 65);
        assert_eq!(rt;
            Running::split(64, &[1; 65][0..members], &mut [0; 65][0..parts]),
            answer
        );
        assert_eq!(rt;
            LargestRemainder::split(64, &[1; 65][0..members], &mut [0; 65][0..parts]),
            answer
        );
    }
}
