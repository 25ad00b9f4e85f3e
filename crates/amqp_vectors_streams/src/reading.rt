//! The frames that a reader returns, one after another, and what it holds after each.

use crate::asking::{HEARTBEAT, LIMIT, MESSAGE, ONES};
use amqp_stream::{FrameReader, PieceSource, ReadError, Source};
use amqp_vectors::asking::same;
use amqp_wire::{AMQPFrameType, AMQPRawFrame};
use std::test::Fail;

/// What a call returns, how many bytes are held after it, and what is left of a budget of 100 reads.
type Step = (Result<Option<AMQPRawFrame<'static>>, ReadError>, usize, u64);

/// A heartbeat.
const BEAT: AMQPRawFrame<'static> = AMQPRawFrame {
    frame_type: AMQPFrameType::Heartbeat,
    channel_id: 0,
    payload: &[],
};

/// The frames of the message.
const METHOD: AMQPRawFrame<'static> = AMQPRawFrame {
    frame_type: AMQPFrameType::Method,
    channel_id: 1,
    payload: &[0, 60, 0, 40, 0, 0, 0, 5, 104, 101, 108, 108, 111, 0],
};

const HEADER: AMQPRawFrame<'static> = AMQPRawFrame {
    frame_type: AMQPFrameType::Header,
    channel_id: 1,
    payload: &[
        0, 60, 0, 0, 0, 0, 0, 0, 0, 0, 0, 5, 144, 0, 10, 116, 101, 120, 116, 47, 112, 108, 97, 105,
        110, 2,
    ],
};

const BODY: AMQPRawFrame<'static> = AMQPRawFrame {
    frame_type: AMQPFrameType::Body,
    channel_id: 1,
    payload: b"hello",
};

/// A message in single bytes.
const A_MESSAGE: &[Step] = &[
    (Ok(Some(METHOD)), 0, 78),
    (Ok(Some(HEADER)), 0, 44),
    (Ok(Some(BODY)), 0, 31),
    (Ok(None), 0, 30),
];

/// A reader goes on after a failed read.
const A_FAILED_READ: &[Step] = &[
    (Err(ReadError::ReadFault), 3, 98),
    (Ok(Some(BEAT)), 0, 97),
    (Ok(None), 0, 96),
];

/// A fault is returned again without a read.
const A_FAULT: &[Step] = &[
    (Err(ReadError::UnknownFrameType), 1, 99),
    (Err(ReadError::UnknownFrameType), 1, 99),
];

/// A fresh source, once the fault is cleared.
const A_HEARTBEAT: &[Step] = &[(Ok(Some(BEAT)), 0, 99)];

/// Bytes, in which pieces they come, which reads fail, and what the calls return.
type Row = (
    &'static [u8],
    &'static [usize],
    &'static [u64],
    &'static [Step],
);

const ROWS: &[Row] = &[
    (&MESSAGE, &ONES, &[], A_MESSAGE),
    (&HEARTBEAT, &[3], &[1], A_FAILED_READ),
    (&[9], &[], &[], A_FAULT),
    (&HEARTBEAT, &[], &[], A_HEARTBEAT),
];

/// Fails unless the calls return so.
fn returns<S: Source>(
    reader: &mut FrameReader,
    source: &mut S,
    steps: &[Step],
) -> Result<(), Fail> {
    let mut budget = 100;
    for (wanted, held, left) in steps {
        same(reader.next(source, &mut budget), *wanted)?;
        same(reader.held().len(), *held)?;
        same(budget, *left)?;
    }
    Ok(())
}

#[test]
fn frames_are_returned(rt: HostRuntime) -> Result<(), Fail> {
    let mut reader = FrameReader::open(rt.alloc(), LIMIT)?;
    for (bytes, pieces, failing, steps) in ROWS {
        reader.clear();
        let mut source = PieceSource::new(bytes, pieces, failing);
        returns(&mut reader, &mut source, steps)?;
    }
    Ok(())
}

/// How many frames come. A loop over a range needs no proof that it ends.
fn count_frames<S: Source>(
    reader: &mut FrameReader,
    source: &mut S,
    budget: &mut u64,
) -> Result<u64, ReadError> {
    for count in 0..u64::MAX {
        let Some(_) = reader.next(source, budget)? else {
            return Ok(count);
        };
    }
    Ok(u64::MAX)
}

#[test]
fn frames_are_counted(rt: HostRuntime) -> Result<(), Fail> {
    let mut reader = FrameReader::open(rt.alloc(), LIMIT)?;
    let mut source = PieceSource::new(&MESSAGE, &ONES, &[]);
    let mut budget = 100;
    same(count_frames(&mut reader, &mut source, &mut budget), Ok(3))
}
