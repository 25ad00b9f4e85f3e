//! Methods whose frames are known by hand, and what is refused of them.

use amqp_put::PutError;
use amqp_put_methods::{put_basic_ack, put_basic_publish, put_tx_select};

/// basic.ack on channel 1: delivery tag 7, multiple.
const ACK: [u8; 21] = [
    1, 0, 1, 0, 0, 0, 13, 0, 60, 0, 80, 0, 0, 0, 0, 0, 0, 0, 7, 1, 206,
];

/// basic.publish on channel 2 to exchange `e` by routing key `key`, mandatory; the reserved ticket is 0.
const PUBLISH: [u8; 21] = [
    1, 0, 2, 0, 0, 0, 13, 0, 60, 0, 40, 0, 0, 1, 101, 3, 107, 101, 121, 1, 206,
];

#[test]
fn methods_are_put(rt: HostRuntime) {
    let mut out = [9; 22];
    assert!(rt; put_basic_ack(1, 7, true, 13, &mut out) == Ok(21));
    assert!(rt; out.starts_with(&ACK) && out.ends_with(&[206, 9]));
    let mut out = [9; 21];
    assert!(rt; put_basic_publish(2, b"e", b"key", true, false, 4096, &mut out) == Ok(21));
    assert!(rt; out == PUBLISH);
    let mut out = [9; 12];
    assert!(rt; put_tx_select(3, 4, &mut out) == Ok(12));
    assert!(rt; out == [1, 0, 3, 0, 0, 0, 4, 0, 90, 0, 10, 206]);
}

#[test]
fn refused_methods_leave_the_slice(rt: HostRuntime) {
    let mut out = [9; 21];
    assert!(rt; put_basic_ack(1, 7, true, 12, &mut out) == Err(PutError::TooLarge));
    assert!(rt; put_basic_ack(1, 7, true, 13, &mut out[..20]) == Err(PutError::BufferTooSmall(21)));
    let latin = put_basic_publish(2, b"e", &[233], true, false, 4096, &mut out);
    assert!(rt; latin == Err(PutError::NotUtf8));
    let long = put_basic_publish(2, &[97; 256], &[233], true, false, 4096, &mut out);
    assert!(rt; long == Err(PutError::TooLong));
    assert!(rt; out == [9; 21]);
}
