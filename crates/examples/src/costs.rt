use pricing::cents::cents;
use refusals::Refusal;

// A price in cents per MW, a quantity in tenths of a MW, and their cents.
const COSTS: [(u32, u32, u64); 8] = [
    (3_800, 65, 24_700),
    (1, 5, 1),
    (1, 4, 0),
    (3, 5, 2),
    (1, 15, 2),
    (1_000_000, 200_000, 20_000_000_000),
    (1_000_000, 0, 0),
    (u32::MAX, u32::MAX, 1_844_674_406_511_961_703),
];

#[test]
fn half_a_cent_goes_up(rt: HostRuntime) {
    for (price, tenths, expected) in COSTS {
        assert_eq!(rt; cents(price, tenths), expected);
    }
}

const NUMBERS: [(Refusal, u8); 11] = [
    (Refusal::WrongQse, 4),
    (Refusal::RosterFull, 5),
    (Refusal::NoSuchPlace, 6),
    (Refusal::PriceAboveLimit, 7),
    (Refusal::QuantityAboveLimit, 8),
    (Refusal::ArrangedAboveObligation, 9),
    (Refusal::DayAheadNotCleared, 10),
    (Refusal::NothingOpenDayAhead, 12),
    (Refusal::NothingBought, 13),
    (Refusal::NoLoad, 14),
    (Refusal::OutsideSharingRange, 19),
];

#[test]
fn refusals_have_their_numbers(rt: HostRuntime) {
    for (refusal, number) in NUMBERS {
        assert_eq!(rt; refusal.number(), number);
    }
}
