//! The checks, by example.
use super::{ROOM, answer};
use std::test::Fail;
use wire::order::{Order, RawTuning};

const FIFTHS: Order<RawTuning> = Order::Sizes {
    tuning: RawTuning {
        octave: 1200,
        interval: 702,
        notes: 12,
    },
};

#[test]
fn a_refusal_is_written_to_the_front(rt: HostRuntime) -> Result<(), Fail> {
    let mut out = [7; ROOM];
    let too_wide = RawTuning {
        octave: 1200,
        interval: 1200,
        notes: 0,
    };
    let Err(refused) = answer(&FIFTHS.asked_of(too_wide).to_bytes(), &mut out) else {
        return Err(Fail::new("the interval is not below the octave"));
    };
    assert_eq!(rt; u32::from(refused.refusal), 2);
    assert_eq!(rt; refused.place, 1);
    assert!(rt; &out[0..10] == [0, 2, 0, 0, 0, 1, 0, 0, 0, 7].as_slice());
    Ok(())
}

#[test]
fn too_little_room_comes_last(rt: HostRuntime) -> Result<(), Fail> {
    let mut out = [7; 63];
    let Err(unread) = answer(b"", &mut out) else {
        return Err(Fail::new("no bytes are no order"));
    };
    assert_eq!(rt; u32::from(unread.refusal), 1);
    let Err(refused) = answer(&FIFTHS.to_bytes(), &mut out) else {
        return Err(Fail::new("63 bytes are too few"));
    };
    assert_eq!(rt; u32::from(refused.refusal), 3);
    assert_eq!(rt; out, [7; 63]);
    Ok(())
}

#[test]
fn an_order_in_range_is_handed_on(rt: HostRuntime) -> Result<(), Fail> {
    let mut out = [7; ROOM];
    let Ok(order) = answer(&FIFTHS.to_bytes(), &mut out) else {
        return Err(Fail::new("it is in range"));
    };
    assert_eq!(rt; order.tuning().octave, 1200);
    assert_eq!(rt; out, [7; ROOM]);
    Ok(())
}
