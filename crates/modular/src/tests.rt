//! Products and remainders of small numbers and of the largest.
use super::*;
use std::test::Fail;

#[test]
fn heights_in_the_largest_octave(rt: HostRuntime) -> Result<(), Fail> {
    let Ok(tuning) = Tuning::new(1_000_000_000, 999_999_999, 2) else {
        return Err(Fail::new("it is in range"));
    };
    assert_eq!(rt; height(tuning, 0), 0);
    assert_eq!(rt; height(tuning, 1), 999_999_999);
    assert_eq!(rt; height(tuning, 999_999_999), 1);
    assert_eq!(rt; height(tuning, u32::MAX), 705_032_705);
    Ok(())
}

#[test]
fn quotients_that_fit_and_that_do_not(rt: HostRuntime) -> Result<(), Fail> {
    let Some(two) = NonZeroU32::new(2) else {
        return Err(Fail::new("2 is not 0"));
    };
    // 599,479 times 14,329 is 2^33 - 1
    let half = Division {
        quotient: u32::MAX,
        remainder: 1,
    };
    assert_eq!(rt; divide_product(599_479, 14_329, two), Some(half));
    assert_eq!(rt; divide_product_up(599_479, 14_329, two), None);
    assert_eq!(rt; divide_product(65_536, 65_536, NonZeroU32::MIN), None);
    assert_eq!(rt;
        divide_product_up(u32::MAX, u32::MAX, NonZeroU32::MAX),
        Some(u32::MAX)
    );
    Ok(())
}

#[test]
fn fifths_in_octaves(rt: HostRuntime) -> Result<(), Fail> {
    let Some(fifth) = NonZeroU32::new(702) else {
        return Err(Fail::new("702 is not 0"));
    };
    assert_eq!(rt; divide_product_up(5, 1200, fifth), Some(9));
    assert_eq!(rt; divide_product_up(351, 1200, fifth), Some(600));
    assert_eq!(rt; divide_product_up(0, 1200, fifth), Some(0));
    assert_eq!(rt; shortfall(1200, fifth), 204);
    assert_eq!(rt; shortfall(1404, fifth), 0);
    assert_eq!(rt; shortfall(1, NonZeroU32::MAX), u32::MAX - 1);
    Ok(())
}
