//! Examples of bytes, worked out by hand.
use super::answer::{Answer, Pair, Pairs, Refusal};
use super::error::ReadError;
use super::order::{Order, RawTuning};

#[test]
fn an_order_and_its_bytes(rt: HostRuntime) {
    let tuning = RawTuning {
        octave: 1200,
        interval: 702,
        notes: 12,
    };
    let order = Order::Whole { tuning, from: 7 };
    let bytes = order.to_bytes();
    assert_eq!(rt;
        bytes,
        [4, 176, 4, 0, 0, 190, 2, 0, 0, 12, 0, 0, 0, 7, 0, 0, 0]
    );
    assert_eq!(rt; Order::try_from(bytes.as_slice()), Ok(order));
}

#[test]
fn where_orders_stop_fitting(rt: HostRuntime) {
    assert_eq!(rt; Order::misfit(&[]), 0);
    assert_eq!(rt; Order::misfit(&[5]), 0);
    assert_eq!(rt; Order::misfit(&[4]), 1);
    assert_eq!(rt; Order::misfit(&[0; 16]), 16);
    assert_eq!(rt; Order::misfit(&[1; 18]), 17);
    assert_eq!(rt; Order::misfit(&[3; 18]), 13);
    assert_eq!(rt;
        Order::misfit(&[3, 0, 0, 0, 0, 0, 0, 0, 0, 0, 0, 0, 0, 0, 9]),
        14
    );
    assert_eq!(rt;
        Order::misfit(&[3, 0, 0, 0, 0, 0, 0, 0, 0, 0, 0, 0, 0, 0, 0]),
        15
    );
    assert_eq!(rt; Order::try_from([3; 17].as_slice()), Err(ReadError));
}

#[test]
fn an_answer_and_its_bytes(rt: HostRuntime) {
    let small = Pair {
        first: 204,
        second: 3,
    };
    let large = Pair {
        first: 294,
        second: 2,
    };
    let answer = Answer::Listed(Pairs::Two(small, large));
    let mut out = [7; 22];
    assert_eq!(rt; answer.write(&mut out), Some(21));
    assert_eq!(rt;
        out,
        [
            3, 2, 0, 0, 0, 204, 0, 0, 0, 3, 0, 0, 0, 38, 1, 0, 0, 2, 0, 0, 0, 7,
        ]
    );
    assert_eq!(rt; Answer::try_from(out.as_slice()), Err(ReadError));
    assert_eq!(rt; Answer::try_from(&out[0..21]), Ok(answer));
    assert_eq!(rt; answer.write(&mut out[0..20]), None);
    assert_eq!(rt;
        Answer::Refused(Refusal::NotThere.at(3)).write(&mut out),
        Some(9)
    );
    assert!(rt; &out[0..10] == [0, 5, 0, 0, 0, 3, 0, 0, 0, 3].as_slice());
}
