//! Runs of `dump` and `undump`, between frames and lines.

use super::Row;
use super::frames::{BODY, CAPABILITIES, DECLARE, HEADER, PRODUCT, PUBLISH, START, START_END};

/// The lines of the frames.
const PUBLISH_LINE: &[u8] = b"method 1 60.40 \"\" \"hello\" --\n";

const HEADER_LINE: &[u8] = b"header 1 60 5 content_type=\"text/plain\" delivery_mode=2\n";

const BODY_LINE: &[u8] = b"body 1 x68656c6c6f\n";

const DECLARE_LINE: &[u8] = b"method 1 50.10 \"some_queue\" +++++ {}\n";

const START_LINE: &[u8] =
    b"method 0 10.10 0 9 {\"capabilities\"=F:{\"basic.nack\"=t:1},\"product\"=S:\"RabbitMQ\"} \"PLAIN AMQPLAIN\" \"en_US\"\n";

pub const ROWS: &[Row] = &[
    (
        &["dump"],
        &[PUBLISH, HEADER, BODY],
        &[PUBLISH_LINE, HEADER_LINE, BODY_LINE],
        0,
        "",
    ),
    (
        &["undump"],
        &[PUBLISH_LINE, HEADER_LINE, BODY_LINE],
        &[PUBLISH, HEADER, BODY],
        0,
        "",
    ),
    (&["dump"], &[DECLARE], &[DECLARE_LINE], 0, ""),
    (
        &["undump"],
        &[b"beat 0\n"],
        &[],
        26,
        "BadText (26) at line 1, byte 0 of the text: ",
    ),
    (
        &["undump"],
        &[b"method 1 50.10 \"q\" ----- {\"b\"=V,\"a\"=V}\n"],
        &[],
        26,
        "BadText (26) at line 1, byte 0 of the text: ",
    ),
    (
        &["undump"],
        &[b"beat\n", b"beat"],
        &[b"\x08\0\0\0\0\0\0\xce"],
        21,
        "CutShort (21) at line 2, byte 5 of the text: ",
    ),
    (
        &["dump"],
        &[START, PRODUCT, CAPABILITIES, START_END],
        &[START_LINE],
        0,
        "",
    ),
];
