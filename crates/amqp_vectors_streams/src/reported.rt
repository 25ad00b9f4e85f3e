//! Where a stream ended, by its report: the same however it is cut, by a codec and by the borrowed one.

use crate::asking::{LIMIT, ONES};
use amqp_lent::canonicalize_lent_reported;
use amqp_stream::{
    Codec, PieceSource, RunReport, StreamError, VecSink, canonicalize_reported, unreported,
};
use amqp_types::{ChannelId, Profile};
use std::alloc::Global;
use std::test::Fail;

/// A report: the error, the place, and the channel.
type Reported = (StreamError, u64, Option<ChannelId>);

/// What comes after a heartbeat, which has eight bytes, and what is reported.
const ROWS: &[(&str, &[u8], Reported)] = &[
    (
        "a body on channel 5 that ends with 207",
        &[8, 0, 0, 0, 0, 0, 0, 206, 3, 0, 5, 0, 0, 0, 1, 9, 207],
        (StreamError::BadFrameEnd, 8, Some(5)),
    ),
    (
        "a frame of type 9",
        &[8, 0, 0, 0, 0, 0, 0, 206, 9, 0, 1, 0, 0, 0, 0, 206],
        (StreamError::UnknownFrameType, 8, None),
    ),
    (
        "a megabyte on channel 258",
        &[8, 0, 0, 0, 0, 0, 0, 206, 3, 1, 2, 0, 16, 0, 0],
        (StreamError::TooLarge, 8, Some(258)),
    ),
    (
        "no protocol header",
        &[8, 0, 0, 0, 0, 0, 0, 206, 65, 77, 81, 88],
        (StreamError::BadProtocolHeader, 8, None),
    ),
    (
        "a method of class 99 on channel 3",
        &[
            8, 0, 0, 0, 0, 0, 0, 206, 1, 0, 3, 0, 0, 0, 4, 0, 99, 0, 1, 206,
        ],
        (StreamError::UnknownClass, 8, Some(3)),
    ),
    (
        "a body that is cut short after its header",
        &[8, 0, 0, 0, 0, 0, 0, 206, 3, 0, 2, 0, 0, 0, 5],
        (StreamError::CutShort, 8, Some(2)),
    ),
    (
        "a body that is cut short in its header",
        &[8, 0, 0, 0, 0, 0, 0, 206, 3, 0, 2, 0, 0, 0],
        (StreamError::CutShort, 8, None),
    ),
];

/// Fails unless this was reported.
fn reports(
    row: &str,
    found: Result<(), RunReport<StreamError>>,
    reported: Reported,
) -> Result<(), Fail> {
    match found {
        Err(report) => {
            let found = (report.error, report.place, report.channel);
            if found == reported {
                return Ok(());
            }
            Err(Fail::new(format_args!("{row}: {found:?} is not {reported:?}")))
        }
        Ok(()) => Err(Fail::new(format_args!("{row}: no error"))),
    }
}

/// Fails unless all of them report this of the bytes in these pieces.
fn report_alike(
    alloc: Global,
    row: &str,
    bytes: &[u8],
    pieces: &[usize],
    reported: Reported,
) -> Result<(), Fail> {
    let mut sink = VecSink::new(alloc);
    let mut source = PieceSource::new(bytes, pieces, &[]);
    let found = canonicalize_reported(alloc, &mut source, &mut sink, LIMIT, 100);
    reports(row, found, reported)?;
    let mut source = PieceSource::new(bytes, pieces, &[]);
    let found = canonicalize_lent_reported(alloc, &mut source, &mut sink, LIMIT, 100);
    reports(row, found, reported)?;
    let mut codec = Codec::open(alloc, LIMIT)?;
    let mut source = PieceSource::new(bytes, pieces, &[]);
    let found = codec.rewrite_reported(Profile::Plain, &mut source, &mut sink, 100);
    reports(row, found, reported)
}

#[test]
fn the_end_is_reported(rt: HostRuntime) -> Result<(), Fail> {
    for (row, bytes, reported) in ROWS {
        for pieces in [[].as_slice(), ONES.as_slice()] {
            report_alike(rt.alloc(), row, bytes, pieces, *reported)?;
        }
    }
    Ok(())
}

/// A failed read ends before the frame that it was for, a spent budget too; without a report the error is the same.
#[test]
fn other_ends_are_reported(rt: HostRuntime) -> Result<(), Fail> {
    let bytes = [8, 0, 0, 0, 0, 0, 0, 206, 3, 0, 2, 0, 0, 0, 5, 1, 2];
    let mut codec = Codec::open(rt.alloc(), LIMIT)?;
    let mut sink = VecSink::new(rt.alloc());
    let mut source = PieceSource::new(&bytes, &[10], &[1]);
    let found = codec.rewrite_reported(Profile::Plain, &mut source, &mut sink, 9);
    reports("a failed read", found, (StreamError::ReadFault, 8, None))?;
    let mut source = PieceSource::new(&bytes, &[15], &[]);
    let found = codec.rewrite_reported(Profile::Plain, &mut source, &mut sink, 1);
    let spent = (StreamError::TurnsSpent, 8, Some(2));
    reports("a spent budget", found, spent)?;
    let mut source = PieceSource::new(&bytes, &[15], &[]);
    let found = unreported(codec.rewrite_reported(Profile::Tidy, &mut source, &mut sink, 1));
    match found {
        Err(StreamError::TurnsSpent) => Ok(()),
        _ => Err(Fail::new(format_args!("no spent budget"))),
    }
}
