//! Frames and their lines, which the tests share.

/// The limit on payloads, in bytes.
pub const LIMIT: u32 = 131_072;

/// Pieces of one byte.
pub const ONES: [usize; 180] = [1; 180];

/// A client's message on channel 1: `basic.publish`, its content header and its body, of 22, 34 and 13 bytes.
pub const MESSAGE: [u8; 69] = [
    1, 0, 1, 0, 0, 0, 14, 0, 60, 0, 40, 0, 0, 0, 5, 104, 101, 108, 108, 111, 0, 206, 2, 0, 1, 0, 0,
    0, 26, 0, 60, 0, 0, 0, 0, 0, 0, 0, 0, 0, 5, 144, 0, 10, 116, 101, 120, 116, 47, 112, 108, 97,
    105, 110, 2, 206, 3, 0, 1, 0, 0, 0, 5, 104, 101, 108, 108, 111, 206,
];

/// Its lines, of 29, 56 and 19 bytes.
pub const MESSAGE_LINES: &str =
    "method 1 60.40 \"\" \"hello\" --\nheader 1 60 5 content_type=\"text/plain\" delivery_mode=2\nbody 1 x68656c6c6f\n";

/// `queue.declare` with all of its flags.
pub const DECLARE: [u8; 30] = [
    1, 0, 1, 0, 0, 0, 22, 0, 50, 0, 10, 0, 0, 10, 115, 111, 109, 101, 95, 113, 117, 101, 117, 101,
    31, 0, 0, 0, 0, 206,
];

/// The line of `DECLARE`.
pub const DECLARE_LINE: &str = "method 1 50.10 \"some_queue\" +++++ {}\n";

/// `queue.declare` whose arguments have a value of each kind, at the bounds of its numbers.
pub const KINDS: [u8; 159] = [
    1, 0, 1, 0, 0, 0, 151, 0, 50, 0, 10, 0, 0, 1, 113, 0, 0, 0, 0, 138, 1, 97, 116, 1, 1, 98, 98,
    128, 1, 99, 66, 255, 1, 100, 115, 128, 0, 1, 101, 117, 255, 255, 1, 102, 73, 128, 0, 0, 0, 1,
    103, 105, 255, 255, 255, 255, 1, 104, 108, 128, 0, 0, 0, 0, 0, 0, 0, 1, 105, 102, 63, 128, 0,
    0, 1, 106, 100, 255, 255, 255, 255, 255, 255, 255, 255, 1, 107, 68, 2, 0, 0, 0, 123, 1, 108,
    83, 0, 0, 0, 7, 10, 34, 92, 126, 127, 255, 65, 1, 109, 65, 0, 0, 0, 3, 86, 116, 0, 1, 110, 84,
    0, 0, 0, 0, 0, 0, 0, 0, 1, 111, 70, 0, 0, 0, 0, 1, 112, 120, 0, 0, 0, 2, 222, 173, 1, 113, 86,
    1, 114, 98, 127, 1, 115, 73, 127, 255, 255, 255, 206,
];

/// The line of `KINDS`.
pub const KINDS_LINE: &str =
    "method 1 50.10 \"q\" ----- {\"a\"=t:1,\"b\"=b:-128,\"c\"=B:255,\"d\"=s:-32768,\"e\"=u:65535,\"f\"=I:-2147483648,\"g\"=i:4294967295,\"h\"=l:-9223372036854775808,\"i\"=f:1065353216,\"j\"=d:18446744073709551615,\"k\"=D:2/123,\"l\"=S:\"\\0a\\22\\5c~\\7f\\ffA\",\"m\"=A:[V,t:0],\"n\"=T:0,\"o\"=F:{},\"p\"=x:dead,\"q\"=V,\"r\"=b:127,\"s\"=I:2147483647}\n";

/// A content header with each property and the greatest body size.
pub const PROPERTIES: [u8; 56] = [
    2, 255, 255, 0, 0, 0, 48, 0, 60, 0, 0, 255, 255, 255, 255, 255, 255, 255, 255, 255, 252, 1, 97,
    1, 98, 0, 0, 0, 0, 1, 9, 1, 99, 1, 100, 1, 101, 1, 102, 0, 0, 0, 0, 0, 0, 0, 7, 1, 103, 1, 104,
    1, 105, 1, 106, 206,
];

/// The line of `PROPERTIES`.
pub const PROPERTIES_LINE: &str =
    "header 65535 60 18446744073709551615 content_type=\"a\" content_encoding=\"b\" headers={} delivery_mode=1 priority=9 correlation_id=\"c\" reply_to=\"d\" expiration=\"e\" message_id=\"f\" timestamp=7 kind=\"g\" user_id=\"h\" app_id=\"i\" cluster_id=\"j\"\n";

/// A heartbeat.
pub const BEAT: [u8; 8] = [8, 0, 0, 0, 0, 0, 0, 206];

/// `queue.declare` whose arguments are not in ascending key order, with duplicate keys, a truth byte of 2 and
/// a tag that is never written.
pub const UNORDERED: [u8; 36] = [
    1, 0, 1, 0, 0, 0, 28, 0, 50, 0, 10, 0, 0, 1, 113, 0, 0, 0, 0, 15, 1, 98, 86, 1, 97, 86, 1, 97,
    116, 2, 1, 99, 85, 0, 5, 206,
];

/// The line of `UNORDERED`.
pub const UNORDERED_LINE: &str = "method 1 50.10 \"q\" ----- {\"a\"=t:1,\"b\"=V,\"c\"=s:5}\n";
