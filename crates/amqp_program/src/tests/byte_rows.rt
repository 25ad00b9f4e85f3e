//! Runs over bytes that write bytes: `raw`, `lent`, `select`, `filter` and `recut`.

use super::Row;
use super::frames::{BODIES, BODY, CAPABILITIES, HEADER, PRODUCT, PUBLISH, START, START_END};

/// A heartbeat with a payload, what is written for it, and a queue's declaration with an argument whose tag no value has.
const LOUD: &[u8] = b"\x08\0\0\0\0\0\x01\x07\xce";

const HEARTBEAT: &[u8] = b"\x08\0\0\0\0\0\0\xce";

const UNKNOWN_TAG: &[u8] = b"\x01\0\x01\0\0\0\x0e\0\x32\0\x0a\0\0\0\0\0\0\0\x02\0\x5a\xce";

pub const ROWS: &[Row] = &[
    (
        &["raw"],
        &[LOUD, b"\x09"],
        &[HEARTBEAT],
        10,
        "UnknownFrameType (10) at byte 9: ",
    ),
    (
        &["raw"],
        &[PUBLISH, HEADER, BODY],
        &[PUBLISH, HEADER, BODY],
        0,
        "",
    ),
    (
        &["raw"],
        &[START, PRODUCT, CAPABILITIES, START_END],
        &[START, CAPABILITIES, PRODUCT, START_END],
        0,
        "",
    ),
    (
        &["lent"],
        &[START, PRODUCT, CAPABILITIES, START_END],
        &[START, CAPABILITIES, PRODUCT, START_END],
        0,
        "",
    ),
    (
        &["lent"],
        &[UNKNOWN_TAG],
        &[],
        19,
        "UnknownTag (19) at byte 0, channel 1: ",
    ),
    (
        &["select", "keep,kind=body"],
        &[PUBLISH, HEADER, BODY],
        &[BODY],
        0,
        "",
    ),
    (
        &["select", "drop,class=60,method=40", "keep,channel=1-5"],
        &[PUBLISH, HEADER, BODY],
        &[HEADER, BODY],
        0,
        "",
    ),
    (
        &["select", "drop"],
        &[HEARTBEAT, b"\x09"],
        &[],
        10,
        "UnknownFrameType (10) at byte 8: ",
    ),
    (
        &["filter", "drop,class=60,method=40", "keep"],
        &[HEARTBEAT, PUBLISH, HEADER, BODIES, LOUD],
        &[HEARTBEAT, HEARTBEAT],
        0,
        "",
    ),
    (
        &["filter", "keep,kind=method"],
        &[PUBLISH, HEADER, BODIES, LOUD],
        &[PUBLISH, HEADER, BODIES],
        0,
        "",
    ),
    (
        &["filter", "drop"],
        &[PUBLISH, HEADER],
        &[],
        25,
        "OpenContent (25) at byte 56, channel 1: ",
    ),
    (
        &["filter", "drop"],
        &[PUBLISH, BODY],
        &[],
        24,
        "BadContent (24) at byte 22, channel 1: ",
    ),
    (
        &["recut", "2"],
        &[PUBLISH, HEADER, BODY],
        &[PUBLISH, HEADER, BODIES],
        0,
        "",
    ),
    (
        &["recut", "131072"],
        &[PUBLISH, HEADER, BODIES],
        &[PUBLISH, HEADER, BODY],
        0,
        "",
    ),
    (
        &["recut", "2"],
        &[PUBLISH, HEADER],
        &[PUBLISH, HEADER],
        25,
        "OpenContent (25) at byte 56, channel 1: ",
    ),
    (
        &["recut", "2"],
        &[BODY],
        &[],
        24,
        "BadContent (24) at byte 0, channel 1: ",
    ),
];
