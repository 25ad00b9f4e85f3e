//! One line at a time: typed frames, texts that are no line, lines that are long or deep, and where a line ends.

use crate::frames::{BEAT, DECLARE, DECLARE_LINE, LIMIT};
use amqp_frame::{AMQPFrame, AMQPFrameType, AMQPRawFrame, ParserError, parse_frame, release};
use amqp_text::{TextError, dump_line, gen_line, line_end, parse_line, undump_line};
use amqp_vectors::asking::{same, same_in};
use std::alloc::Global;
use std::test::Fail;

/// Appends the line of a frame, and returns whether it is read back as an equal frame.
pub fn append_line(
    alloc: Global,
    lines: &mut Vec<u8>,
    frame: AMQPFrame,
) -> Result<bool, TextError> {
    let held = lines.len();
    let written = gen_line(alloc, lines, &frame);
    let read = parse_line(alloc, lines.get(held..).unwrap_or(&[]), LIMIT);
    let found = match read {
        Ok(other) => {
            let same = other == frame;
            release(other);
            Ok(same)
        }
        Err(error) => Err(error),
    };
    release(frame);
    match written {
        Ok(()) => found,
        Err(_) => Err(TextError::NoMemory),
    }
}

/// The same of the frame at the front of some bytes.
pub fn append_line_of(alloc: Global, lines: &mut Vec<u8>, bytes: &[u8]) -> Result<bool, TextError> {
    match parse_frame(alloc, bytes) {
        Ok((_, frame)) => append_line(alloc, lines, frame),
        Err(ParserError::NoMemory) => Err(TextError::NoMemory),
        Err(_) => Err(TextError::BadText),
    }
}

#[test]
fn a_line_is_read_as_its_frame(rt: HostRuntime) -> Result<(), Fail> {
    let alloc = rt.alloc();
    let mut lines = Vec::new(alloc);
    let same = append_line_of(alloc, &mut lines, &DECLARE)?;
    assert!(rt; same);
    assert_eq!(rt; lines.as_slice(), DECLARE_LINE.as_bytes());
    let mut lines = Vec::new(alloc);
    let same = append_line(alloc, &mut lines, AMQPFrame::InvalidHeartbeat(0))?;
    assert!(rt; !same);
    assert_eq!(rt; lines.as_slice(), b"beat\n".as_slice());
    Ok(())
}

/// A part of a body on channel 1.
pub const RAW_BODY: AMQPRawFrame<'static> = AMQPRawFrame {
    frame_type: AMQPFrameType::Body,
    channel_id: 1,
    payload: b"hello",
};

#[test]
fn a_borrowed_frame_has_a_line(rt: HostRuntime) -> Result<(), Fail> {
    let alloc = rt.alloc();
    let mut lines = Vec::from_slice(alloc, b"beat\n")?;
    dump_line(alloc, &mut lines, RAW_BODY)?;
    assert_eq!(rt; lines.as_slice(), b"beat\nbody 1 x68656c6c6f\n".as_slice());
    assert_eq!(rt; line_end(&lines, 0), Some(5));
    let mut bytes = Vec::from_slice(alloc, &BEAT)?;
    undump_line(alloc, &mut bytes, b"body 1 x68656c6c6f\n", LIMIT)?;
    assert_eq!(rt;
        bytes.as_slice(),
        [
            8, 0, 0, 0, 0, 0, 0, 206, 3, 0, 1, 0, 0, 0, 5, 104, 101, 108, 108, 111, 206
        ]
        .as_slice()
    );
    Ok(())
}

/// How many canonical bytes the frame of a line has.
fn count_of(alloc: Global, text: &[u8], max_payload: u32) -> Result<usize, TextError> {
    let mut bytes = Vec::new(alloc);
    undump_line(alloc, &mut bytes, text, max_payload)?;
    Ok(bytes.len())
}

/// Texts that end with one newline and are the line of no frame.
const NO_LINES: &str = r#" beat
beat 
beat 0
beat 00
beat 65536
beat -1
Beat
beats
beat 1 
body 1 xAB
body 1 xa
body 1 ab
body 01 xab
body 1  xab
body 1 xab 
body xab
body 1
proto 0.9
proto 0.9.256
proto 00.9.1
proto 0.9.1.0
proto 0,9,1
method 1 60.11 
method 1 60.12
method 1 61.11
method 1 60.011
method 1 60
method 65536 60.11
method 1 60.80 -0 -
method 1 60.80 18446744073709551616 -
method 1 60.80 1 ++
method 1 60.80 1
method 1 60.80 1 *
method 1 60.80 +1 -
method 1 60.21 a
method 1 60.21 "a
method 1 60.21 "a" "b"
method 1 60.21 "\61"
method 1 60.21 "\0A"
method 1 60.21 "\ff"
method 1 60.21 "\n"
method 1 50.10 "q" ----- {"b"=V,"a"=V}
method 1 50.10 "q" ----- {"a"=V,"a"=V}
method 1 50.10 "q" ----- {"a"=V,}
method 1 50.10 "q" ----- {,}
method 1 50.10 "q" ----- {"a"=t:2}
method 1 50.10 "q" ----- {"a"=b:128}
method 1 50.10 "q" ----- {"a"=b:-129}
method 1 50.10 "q" ----- {"a"=b:-0}
method 1 50.10 "q" ----- {"a"=B:-1}
method 1 50.10 "q" ----- {"a"=U:1}
method 1 50.10 "q" ----- {"a"=L:1}
method 1 50.10 "q" ----- {"a"=q:1}
method 1 50.10 "q" ----- {"a"=D:256/0}
method 1 50.10 "q" ----- {"a"=D:1}
method 1 50.10 "q" ----- {"a"=x:DE}
method 1 50.10 "q" ----- {"a"=V:}
method 1 50.10 "q" ----- {"a"=V
method 1 50.10 "q" ----- {"a":V}
method 1 50.10 "q" ----- {"a"=S:"a
method 1 50.10 "q" ----- {"a"=A:[V V]}
method 1 50.10 "q" ----- { "a"=V}
method 1 50.10 "q" ----- {"\ff"=V}
method 1 50.10 "q" ----- {}{}
method 1 50.10 "q" ----- 
header 1 60 5 delivery_mode=2 content_type="a"
header 1 60 5 priority=1 priority=1
header 1 60 5 color=1
header 1 60
header 1 60 5 priority=256
header 1 60 5 priority="1"
header 1 60 18446744073709551616
header 1 60 5 headers=
header 1 65536 5
method 1 50.12
method 1 50.10 "q
method 1 50.10 "q" +++++ {"a"=Z:1}
body 65536 x
proto 256.9.1
"#;

/// Other texts that are none.
const OTHER_TEXTS: &[&[u8]] = &[b"", b"\n", b"beat", b"beat\n\n", b"beat\r\n"];

#[test]
fn other_texts_are_no_lines(rt: HostRuntime) -> Result<(), Fail> {
    let alloc = rt.alloc();
    for text in NO_LINES.lines() {
        let line = format!(in alloc; "{text}\n")?;
        let found = count_of(alloc, line.as_bytes(), u32::MAX);
        same_in(text, found, Err(TextError::BadText))?;
    }
    for text in OTHER_TEXTS {
        same(count_of(alloc, text, u32::MAX), Err(TextError::BadText))?;
    }
    Ok(())
}

/// A line that is made of five texts, the second and the fourth so many times.
fn made(alloc: Global, texts: [&str; 5], times: usize) -> Result<Vec<u8>, TextError> {
    let [front, opening, middle, closing, end] = texts;
    let mut line = Vec::new(alloc);
    line.extend_from_slice(front.as_bytes())?;
    for _ in 0..times {
        line.extend_from_slice(opening.as_bytes())?;
    }
    line.extend_from_slice(middle.as_bytes())?;
    for _ in 0..times {
        line.extend_from_slice(closing.as_bytes())?;
    }
    line.extend_from_slice(end.as_bytes())?;
    Ok(line)
}

/// A `queue.declare` with one argument: arrays, one inside the other.
const ARRAYS: [&str; 5] = ["method 1 50.10 \"q\" ----- {\"a\"=", "A:[", "V", "]", "}\n"];

/// A `basic.consume-ok`, whose consumer tag is a short string.
const SHORT_STRING: [&str; 5] = ["method 1 60.21 \"", "a", "", "", "\"\n"];

/// A body.
const BODY: [&str; 5] = ["body 1 x", "ab", "", "", "\n"];

/// Lines that are made, how many times what is repeated stands there, the limit, and how many bytes the frame has, of
/// which 8 are no payload.
type Made = ([&'static str; 5], usize, u32, Result<usize, TextError>);

const MADE: &[Made] = &[
    (ARRAYS, 0, LIMIT, Ok(24)),
    (ARRAYS, 1, LIMIT, Ok(29)),
    (ARRAYS, 63, LIMIT, Ok(339)),
    (ARRAYS, 64, LIMIT, Err(TextError::BadText)),
    (ARRAYS, 199, LIMIT, Err(TextError::BadText)),
    (SHORT_STRING, 255, LIMIT, Ok(268)),
    (SHORT_STRING, 256, LIMIT, Err(TextError::BadText)),
    (BODY, 2, 0, Err(TextError::BadText)),
    (BODY, 2, 1, Err(TextError::BadText)),
    (BODY, 2, 2, Ok(10)),
    (BODY, 131_072, LIMIT, Ok(131_080)),
    (BODY, 131_073, LIMIT, Err(TextError::BadText)),
];

/// Fails unless the line of the row is read so.
fn is_read(alloc: Global, row: Made) -> Result<(), Fail> {
    let (texts, times, limit, outcome) = row;
    let line = made(alloc, texts, times)?;
    same(count_of(alloc, &line, limit), outcome)
}

#[test]
fn long_and_deep_lines_are_read_within_limits(rt: HostRuntime) -> Result<(), Fail> {
    for row in MADE {
        is_read(rt.alloc(), *row)?;
    }
    Ok(())
}
