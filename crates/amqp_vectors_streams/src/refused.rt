//! Memory that runs out: `rt try --test --fail-alloc N` lets the Nth allocation of each test fail.

use crate::asking::{LIMIT, MESSAGE, START, START_IN_ORDER, TWO_HEARTBEATS};
use amqp_stream::{Codec, CountSink, FrameReader, SliceSource, StreamError, VecSink, canonicalize};
use amqp_types::Profile;
use std::alloc::{AllocError, Global};

/// Out of memory comes only before anything is taken or written, and a sink that is out of memory has a
/// part of the canonical bytes.
#[test]
fn refused_memory_leaves_a_front(rt: HostRuntime) {
    let mut source = SliceSource::new(&TWO_HEARTBEATS);
    let mut sink = VecSink::new(rt.alloc());
    match canonicalize(rt.alloc(), &mut source, &mut sink, LIMIT, 17) {
        Ok(()) => assert_eq!(rt; sink.bytes(), TWO_HEARTBEATS.as_slice()),
        Err(error) => {
            assert!(rt; error == StreamError::NoMemory || error == StreamError::WriteFault);
            assert_eq!(rt; sink.bytes(), [].as_slice());
        }
    }
}

/// Whether a codec writes these bytes for the others, or a front of them and then its sink was out of memory. And
/// whether it was.
fn is_canonical(alloc: Global, codec: &mut Codec, bytes: &[u8], written: &[u8]) -> (bool, bool) {
    let mut source = SliceSource::new(bytes);
    let mut sink = VecSink::new(alloc);
    match codec.rewrite(Profile::Plain, &mut source, &mut sink, 100) {
        Ok(()) => (sink.bytes() == written, false),
        Err(StreamError::WriteFault) => (written.starts_with(sink.bytes()), true),
        Err(_) => (false, true),
    }
}

/// One refusal, and the codec serves on. Only its sink takes memory.
#[test]
fn refused_memory_leaves_a_codec(rt: HostRuntime) {
    let Ok(codec) = Codec::open(rt.alloc(), LIMIT) else {
        return;
    };
    let mut codec = codec;
    let mut was_refused = false;
    let rows: [(&[u8], &[u8]); 4] = [
        (&MESSAGE, &MESSAGE),
        (&START, &START_IN_ORDER),
        (&MESSAGE, &MESSAGE),
        (&START, &START_IN_ORDER),
    ];
    for (read, written) in rows {
        let (kept, refused) = is_canonical(rt.alloc(), &mut codec, read, written);
        assert!(rt; kept);
        assert!(rt; !(refused && was_refused));
        was_refused = was_refused || refused;
    }
}

/// A body.
const BODY: [u8; 11] = [3, 0, 1, 0, 0, 0, 3, 1, 2, 3, 206];

/// A method without a table.
const METHOD: [u8; 12] = [1, 0, 1, 0, 0, 0, 4, 0, 90, 0, 10, 206];

/// A method with a table with duplicate keys. Its canonical bytes are 4 fewer.
const TABLE: [u8; 28] = [
    1, 0, 1, 0, 0, 0, 20, 0, 50, 0, 10, 0, 0, 0, 31, 0, 0, 0, 8, 1, 97, 116, 0, 1, 97, 116, 7, 206,
];

/// The three in each order.
const ORDERS: &[[&[u8]; 3]] = &[
    [&BODY, &METHOD, &TABLE],
    [&BODY, &TABLE, &METHOD],
    [&METHOD, &BODY, &TABLE],
    [&METHOD, &TABLE, &BODY],
    [&TABLE, &BODY, &METHOD],
    [&TABLE, &METHOD, &BODY],
];

/// Three inputs one after another.
fn joined(alloc: Global, parts: [&[u8]; 3]) -> Result<Vec<u8>, AllocError> {
    let mut all = Vec::new(alloc);
    for part in parts {
        all.extend_from_slice(part)?;
    }
    Ok(all)
}

/// After `open` a codec takes no memory, whatever comes.
#[test]
fn refused_memory_after_open(rt: HostRuntime) {
    let Ok(codec) = Codec::open(rt.alloc(), LIMIT) else {
        return;
    };
    let mut codec = codec;
    for parts in ORDERS {
        let Ok(bytes) = joined(rt.alloc(), *parts) else {
            return;
        };
        for profile in [Profile::Plain, Profile::Tidy] {
            let mut source = SliceSource::new(bytes.as_slice());
            let mut sink = CountSink::new();
            assert_eq!(rt; codec.rewrite(profile, &mut source, &mut sink, 100), Ok(()));
            assert_eq!(rt; sink.total(), 47);
        }
    }
}

/// Of a reader only `open` takes memory: whether the payloads that it returns can be kept or not, it goes on.
#[test]
fn refused_memory_leaves_a_reader(rt: HostRuntime) {
    let Ok(reader) = FrameReader::open(rt.alloc(), LIMIT) else {
        return;
    };
    let mut reader = reader;
    let mut source = SliceSource::new(&MESSAGE);
    let mut budget = 2;
    for frames in 0..4 {
        match reader.next(&mut source, &mut budget) {
            Ok(Some(raw)) => {
                if let Ok(kept) = Vec::from_slice(rt.alloc(), raw.payload) {
                    assert_eq!(rt; kept.as_slice(), raw.payload);
                }
            }
            found => {
                assert_eq!(rt; found, Ok(None));
                assert_eq!(rt; frames, 3);
            }
        }
    }
}
