use std::test::Fail;
use text::{Dollars, Megawatts};

const DOLLARS: [(i64, &str); 8] = [
    (0, "$0.00"),
    (-5, "-$0.05"),
    (24_700, "$247.00"),
    (-423_500, "-$4,235.00"),
    (99_999_999, "$999,999.99"),
    (100_000_000, "$1,000,000.00"),
    (i64::MAX, "$92,233,720,368,547,758.07"),
    (i64::MIN, "-$92,233,720,368,547,758.08"),
];

const MEGAWATTS: [(u32, &str); 4] = [
    (0, "0.0 MW"),
    (65, "6.5 MW"),
    (10_000, "1,000.0 MW"),
    (u32::MAX, "429,496,729.5 MW"),
];

#[test]
fn amounts_are_written_in_dollars(rt: HostRuntime) -> Result<(), Fail> {
    for (cents, expected) in DOLLARS {
        assert_eq!(rt;
            Dollars::from(cents).to_string(rt.alloc())?.as_str(),
            expected
        );
    }
    Ok(())
}

#[test]
fn quantities_are_written_in_megawatts(rt: HostRuntime) -> Result<(), Fail> {
    for (tenths, expected) in MEGAWATTS {
        assert_eq!(rt;
            Megawatts::from(tenths).to_string(rt.alloc())?.as_str(),
            expected
        );
    }
    Ok(())
}
