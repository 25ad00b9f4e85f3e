//! Made streams: what came on each channel is the same after recutting, and each body has the size that is asked, or is
//! its message's last.

ghost use Rattle.std.specs.Prelude.{◌≤◌};

use crate::rows::recut_by_size;
use amqp_stream::{FrameReader, PieceSource, SliceSource, VecSink};
use amqp_vectors::asking::same;
use amqp_wire::AMQPFrameType;
use std::alloc::{AllocError, Global};
use std::test::Fail;

/// The limit on payloads, in bytes.
const LIMIT: u32 = 100;

/// Numbers one after another that seem random: a linear congruence.
#[derive(Drop)]
struct Numbers {
    state: u64,
}

impl Numbers {
    /// The next number, at most `most`.
    fn next(&mut self, most: u8) -> u8
        ensures { result ≤ most }
    {
        self.state = self
            .state
            .wrapping_mul(6_364_136_223_846_793_005)
            .wrapping_add(1_442_695_040_888_963_407);
        let [byte, ..] = self.state.to_be_bytes();
        byte.min(most)
    }

    /// One of these.
    fn pick(&mut self, numbers: &[u8]) -> u8 {
        let place = self.next(255) as usize;
        match place.checked_rem(numbers.len()) {
            Some(place) => numbers.get(place).copied().unwrap_or(0),
            None => 0,
        }
    }
}

/// Appends a frame.
fn push_frame(
    out: &mut Vec<u8>,
    frame_type: u8,
    channel: u8,
    payload: &[u8],
) -> Result<(), AllocError> {
    let len = u8::try_from(payload.len()).unwrap_or(255);
    out.extend_from_slice(&[frame_type, 0, channel, 0, 0, 0, len])?;
    out.extend_from_slice(payload)?;
    out.push(206)?;
    Ok(())
}

/// Appends a method and a content header that announces so many bytes.
fn push_opening(out: &mut Vec<u8>, channel: u8, size: u8) -> Result<(), AllocError> {
    push_frame(out, 1, channel, &[0, 60, 0, 40, 0, 0, 0, 0, 0])?;
    push_frame(
        out,
        2,
        channel,
        &[0, 60, 0, 0, 0, 0, 0, 0, 0, 0, 0, size, 0, 0],
    )
}

/// The bytes of bodies.
const BYTES: [u8; 12] = [1, 2, 3, 4, 5, 6, 7, 8, 9, 10, 11, 12];

/// Appends a body of so many bytes.
fn push_body(out: &mut Vec<u8>, channel: u8, count: u8) -> Result<(), AllocError> {
    push_frame(
        out,
        3,
        channel,
        BYTES.get(..count as usize).unwrap_or(&BYTES),
    )
}

/// Appends what comes next on a channel: the beginning of a message, or a part of its body.
fn push_next(
    out: &mut Vec<u8>,
    numbers: &mut Numbers,
    channel: u8,
    left: &mut u8,
) -> Result<(), AllocError> {
    if *left == 0 {
        *left = numbers.pick(&[0, 1, 2, 3, 4, 5, 6, 7, 8, 11, 12]);
        return push_opening(out, channel, *left);
    }
    let count = numbers.pick(&[0, 1, 2, 3, 4, 5, 12]).min(*left);
    *left -= count;
    push_body(out, channel, count)
}

/// A stream of messages on three channels, all complete, with heartbeats in between.
fn make(alloc: Global, seed: u64) -> Result<Vec<u8>, AllocError> {
    let mut numbers = Numbers { state: seed };
    let mut lefts = [0; 3];
    let mut out = Vec::new(alloc);
    for _ in 0..20 {
        let channel = numbers.pick(&[0, 1, 2, 3]);
        match lefts.get_mut(channel as usize) {
            Some(left) => push_next(&mut out, &mut numbers, channel, left)?,
            None => push_frame(&mut out, 8, 0, &[])?,
        }
    }
    for channel in 0..3 {
        if lefts[channel as usize] > 0 {
            push_body(&mut out, channel, lefts[channel as usize])?;
        }
    }
    Ok(out)
}

/// What came on a channel: the payloads of its methods, content headers and bodies, one after another.
fn content_on(alloc: Global, bytes: &[u8], channel: u16) -> Result<Vec<u8>, Fail> {
    let mut content = Vec::new(alloc);
    let mut reader = FrameReader::open(alloc, LIMIT)?;
    let mut source = SliceSource::new(bytes);
    let mut budget = 10_000;
    for _ in 0..1000 {
        match reader.next(&mut source, &mut budget)? {
            Some(raw) if raw.channel_id == channel => content.extend_from_slice(raw.payload)?,
            Some(_) => {}
            None => return Ok(content),
        }
    }
    Err(Fail::new(format_args!("too many frames")))
}

/// Takes a frame into account: the size that a content header announces is left of a message, and a body takes from it.
/// False where a body is empty, or has neither the asked size nor all that is left.
fn takes(frame_type: AMQPFrameType, payload: &[u8], size: u64, left: &mut u64) -> bool {
    match frame_type {
        AMQPFrameType::Header => {
            *left = payload.get(11).map_or(0, |byte| *byte as u64);
            true
        }
        AMQPFrameType::Body => {
            let wanted = size.min(*left);
            *left -= wanted;
            wanted > 0 && payload.len() as u64 == wanted
        }
        AMQPFrameType::ProtocolHeader | AMQPFrameType::Method | AMQPFrameType::Heartbeat => true,
    }
}

/// Whether each body of some frames has this size, or is its message's last.
fn are_sized(alloc: Global, bytes: &[u8], size: u64) -> Result<bool, Fail> {
    let mut lefts = [0; 3];
    let mut reader = FrameReader::open(alloc, LIMIT)?;
    let mut source = SliceSource::new(bytes);
    let mut budget = 10_000;
    for _ in 0..1000 {
        let Some(raw) = reader.next(&mut source, &mut budget)? else {
            return Ok(true);
        };
        let Some(left) = lefts.get_mut(raw.channel_id as usize) else {
            return Ok(false);
        };
        if !takes(raw.frame_type, raw.payload, size, left) {
            return Ok(false);
        }
    }
    Ok(false)
}

/// Recuts some frames that come in small pieces.
fn recut_by(alloc: Global, bytes: &[u8], size: u32) -> Result<VecSink, Fail> {
    let mut source = PieceSource::new(bytes, &[1, 30, 2, 50, 3], &[]);
    let mut sink = VecSink::new(alloc);
    recut_by_size(alloc, &mut source, &mut sink, LIMIT, size)??;
    Ok(sink)
}

#[test]
fn messages_stay(rt: HostRuntime) -> Result<(), Fail> {
    let alloc = rt.alloc();
    for seed in 0..300 {
        let made = make(alloc, seed)?;
        let size = 1 + (seed % 7) as u32;
        let found = recut_by(alloc, made.as_slice(), size)?;
        same(are_sized(alloc, found.bytes(), size as u64)?, true)?;
        for channel in 0..3 {
            let wanted = content_on(alloc, made.as_slice(), channel)?;
            let content = content_on(alloc, found.bytes(), channel)?;
            same(content.as_slice(), wanted.as_slice())?;
        }
        let again = recut_by(alloc, found.bytes(), size)?;
        same(again.bytes(), found.bytes())?;
    }
    Ok(())
}
