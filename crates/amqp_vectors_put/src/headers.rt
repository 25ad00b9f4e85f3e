//! Content headers and other frames whose bytes are known by hand.

use amqp_put::{
    MaskedProperties, Properties, PutError, TableContent, Text, put_body_frame, put_content_header,
    put_heartbeat, put_masked_header, put_protocol_header,
};
use amqp_wire::ProtocolVersion;

/// A content header of class 60 on channel 1, for a body of 5 bytes: content type `a`, delivery mode 2, timestamp 1 and
/// application `b`.
const FEW: [u8; 35] = [
    2, 0, 1, 0, 0, 0, 27, 0, 60, 0, 0, 0, 0, 0, 0, 0, 0, 0, 5, 0x90, 0x48, 1, 97, 2, 0, 0, 0, 0, 0,
    0, 0, 1, 1, 98, 206,
];

/// A content header of class 60 on channel 0, for an empty body, with all properties.
const ALL: [u8; 57] = [
    2, 0, 0, 0, 0, 0, 48, 0, 60, 0, 0, 0, 0, 0, 0, 0, 0, 0, 0, 0xFF, 0xFC, 1, 97, 1, 98, 0, 0, 0,
    0, 1, 9, 1, 99, 1, 100, 1, 55, 1, 101, 0, 0, 0, 0, 0, 0, 0, 2, 1, 102, 1, 103, 1, 104, 1, 105,
    206, 7,
];

#[test]
fn few_properties_are_put(rt: HostRuntime) {
    let properties = Properties {
        content_type: Some(Text { bytes: &[97] }),
        delivery_mode: Some(2),
        timestamp: Some(1),
        app_id: Some(Text { bytes: &[98] }),
        ..Properties::default()
    };
    let mut out = [7; 35];
    let made = put_content_header(1, 60, 5, &properties, 26, &mut out);
    assert!(rt; made == Err(PutError::TooLarge));
    let made = put_content_header(1, 60, 5, &properties, 27, &mut out[1..]);
    assert!(rt; made == Err(PutError::BufferTooSmall(35)));
    assert!(rt; out == [7; 35]);
    let made = put_content_header(1, 60, 5, &properties, 27, &mut out);
    assert!(rt; made == Ok(35));
    assert!(rt; out == FEW);
}

#[test]
fn all_properties_are_put(rt: HostRuntime) {
    let properties = Properties {
        content_type: Some(Text { bytes: &[97] }),
        content_encoding: Some(Text { bytes: &[98] }),
        headers: Some(TableContent::new(&[])),
        delivery_mode: Some(1),
        priority: Some(9),
        correlation_id: Some(Text { bytes: &[99] }),
        reply_to: Some(Text { bytes: &[100] }),
        expiration: Some(Text { bytes: &[55] }),
        message_id: Some(Text { bytes: &[101] }),
        timestamp: Some(2),
        kind: Some(Text { bytes: &[102] }),
        user_id: Some(Text { bytes: &[103] }),
        app_id: Some(Text { bytes: &[104] }),
        cluster_id: Some(Text { bytes: &[105] }),
    };
    let mut out = [7; 57];
    assert!(rt; put_content_header(0, 60, 0, &properties, 4096, &mut out) == Ok(56));
    assert!(rt; out == ALL);
}

/// All properties, of which a mask says which are set.
fn masked(mask: u16, message_id: &[u8]) -> MaskedProperties<'_> {
    MaskedProperties {
        mask,
        delivery_mode: 1,
        priority: 9,
        unused: 0,
        timestamp: 2,
        content_type: &[97],
        content_encoding: &[98],
        headers: &[],
        correlation_id: &[99],
        reply_to: &[100],
        expiration: &[55],
        message_id,
        kind: &[102],
        user_id: &[103],
        app_id: &[104],
        cluster_id: &[105],
    }
}

#[test]
fn a_mask_says_which(rt: HostRuntime) {
    let mut out = [7; 57];
    let all = masked(0xFFFC, &[101]);
    if all.has_no_unused_bit() {
        assert!(rt;
            put_masked_header(0, 60, 0, &all, TableContent::new(&[]), 4096, &mut out) == Ok(56)
        );
    }
    assert!(rt; out == ALL);
}

/// A content header of class 60 on channel 1, for a body of 5 bytes, with no property.
const NONE: [u8; 22] = [
    2, 0, 1, 0, 0, 0, 14, 0, 60, 0, 0, 0, 0, 0, 0, 0, 0, 0, 5, 0, 0, 206,
];

#[test]
fn what_is_not_set_is_not_looked_at(rt: HostRuntime) {
    let mut out = [7; 22];
    let none = masked(0, &[0xE9]);
    if none.has_no_unused_bit() {
        assert!(rt;
            put_masked_header(1, 60, 5, &none, TableContent::new(&[]), 14, &mut out) == Ok(22)
        );
    }
    assert!(rt; out == NONE);
    let latin = masked(0x0080, &[0xE9]);
    if latin.has_no_unused_bit() {
        let made = put_masked_header(1, 60, 5, &latin, TableContent::new(&[]), 14, &mut out);
        assert!(rt; made == Err(PutError::NotUtf8));
    }
}

#[test]
fn other_frames_are_put(rt: HostRuntime) {
    let mut out = [7; 10];
    assert!(rt; put_body_frame(1, &[104, 105], 2, &mut out) == Ok(10));
    assert!(rt; out == [3, 0, 1, 0, 0, 0, 2, 104, 105, 206]);
    assert!(rt; put_body_frame(1, &[104, 105], 1, &mut out) == Err(PutError::TooLarge));
    assert!(rt; put_body_frame(1, &[], 0, &mut out) == Ok(8));
    assert!(rt; out == [3, 0, 1, 0, 0, 0, 0, 206, 105, 206]);
    assert!(rt; put_heartbeat(&mut out) == Ok(8));
    assert!(rt; out == [8, 0, 0, 0, 0, 0, 0, 206, 105, 206]);
    assert!(rt; put_protocol_header(ProtocolVersion::amqp_0_9_1(), &mut out) == Ok(8));
    assert!(rt; out == [65, 77, 81, 80, 0, 0, 9, 1, 105, 206]);
    assert!(rt; put_heartbeat(&mut out[..7]) == Err(PutError::BufferTooSmall(8)));
}
