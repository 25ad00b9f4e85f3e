//! Frames with the marks that they have.

use crate::frames::Step::{self, Ack, Body, Header, Publish, Read};
use crate::frames::{
    BODY, DELIVER, DELIVERED, GET_OK, GOT, HEADER, PUBLISH, PUBLISHED, RETURN, RETURNED, frame,
    let_go,
};
use amqp_content::{ContentFault, Mark, Tracker};
use amqp_frame::FrameOutline;
use amqp_types::ParserError;
use amqp_vectors::asking::same;
use std::alloc::Global;
use std::test::Fail;

const UNEXPECTED_BODY: Mark = Mark::Fault(ContentFault::UnexpectedBody);

/// The marks of the whole body of five bytes, of its first two, and of the others.
const WHOLE: Mark = Mark::Body {
    before: 0,
    after: 5,
    size: 5,
};

const FIRST_TWO: Mark = Mark::Body {
    before: 0,
    after: 2,
    size: 5,
};

const LAST_THREE: Mark = Mark::Body {
    before: 2,
    after: 5,
    size: 5,
};

/// Frames with their marks, and on how many channels a message has begun then.
const ROWS: &[&[(Step, Mark, usize)]] = &[
    &[
        (Read(&PUBLISH), Mark::Opening, 1),
        (Read(&HEADER), Mark::Header, 1),
        (Read(&BODY), WHOLE, 0),
    ],
    &[
        (Read(&RETURN), Mark::Opening, 1),
        (Read(&HEADER), Mark::Header, 1),
        (Read(&BODY), WHOLE, 0),
    ],
    &[
        (Read(&DELIVER), Mark::Opening, 1),
        (Read(&HEADER), Mark::Header, 1),
        (Read(&BODY), WHOLE, 0),
    ],
    &[
        (Read(&GET_OK), Mark::Opening, 1),
        (Read(&HEADER), Mark::Header, 1),
        (Read(&BODY), WHOLE, 0),
    ],
    &[
        (Publish(1), Mark::Opening, 1),
        (Header(1, 60, 5), Mark::Header, 1),
        (Body(1, 2), FIRST_TWO, 1),
        (Body(2, 1), UNEXPECTED_BODY, 1),
        (Ack(3), Mark::Passed, 1),
        (Body(1, 3), LAST_THREE, 0),
    ],
];

/// The mark of the frame of a step.
fn tracked(alloc: Global, tracker: &mut Tracker, step: Step) -> Result<Mark, ParserError> {
    let frame = frame(alloc, step)?;
    let mark = tracker.track(&frame);
    let_go(frame);
    Ok(mark?)
}

#[test]
fn frames_have_marks(rt: HostRuntime) -> Result<(), Fail> {
    for row in ROWS {
        let mut tracker = Tracker::open(rt.alloc(), 5);
        for (step, mark, unfinished) in *row {
            same(tracked(rt.alloc(), &mut tracker, *step)?, *mark)?;
            same(tracker.unfinished(), *unfinished)?;
        }
    }
    Ok(())
}

/// The outlines of a message on a channel of its own: its opening by its ids, its content header and its body.
fn message_outlines(channel_id: u16, method_id: u8) -> [FrameOutline; 3] {
    [
        FrameOutline::Method {
            channel_id,
            class_id: 60,
            method_id: method_id as u16,
        },
        FrameOutline::Header {
            channel_id,
            class_id: 60,
            body_size: 5,
        },
        FrameOutline::Body {
            channel_id,
            length: 5,
        },
    ]
}

/// Messages, and then a body, by the outlines of frames that are not read into memory.
#[test]
fn outlines_have_marks(rt: HostRuntime) -> Result<(), Fail> {
    let mut tracker = Tracker::open(rt.alloc(), 5);
    let openings = [(1, PUBLISHED), (2, RETURNED), (3, DELIVERED), (4, GOT)];
    for (channel_id, method_id) in openings {
        let [opening, header, body] = message_outlines(channel_id, method_id);
        same(tracker.track_outline(opening)?, Mark::Opening)?;
        same(tracker.track_outline(header)?, Mark::Header)?;
        same(tracker.track_outline(body)?, WHOLE)?;
        same(tracker.track_outline(body)?, UNEXPECTED_BODY)?;
    }
    Ok(())
}
