//! Many channels, each at another place of its message.

use crate::frames::{HELD, PUBLISHED, Step, let_go, pushed};
use amqp_content::Assembler;
use amqp_vectors::asking::same;
use std::alloc::Global;
use std::test::Fail;

const CHANNELS: u16 = 1000;

/// Which frame of its message comes on each channel.
#[derive(Clone, Copy)]
enum Part {
    Opening,
    Header,
    Body,
}

fn step(part: Part, channel: u16) -> Step {
    match part {
        Part::Opening => Step::Publish(channel),
        Part::Header => Step::Header(channel, 60, 2),
        Part::Body => Step::Body(channel, 1),
    }
}

/// Pushes this frame on each channel.
fn on_each(alloc: Global, assembler: &mut Assembler, part: Part, outcome: u8) -> Result<(), Fail> {
    for channel in 0..CHANNELS {
        same(
            pushed(alloc, assembler, step(part, channel), b"hh")?,
            outcome,
        )?;
    }
    Ok(())
}

/// The parts of a message, and what becomes of each.
const PARTS: &[(Part, u8)] = &[
    (Part::Opening, HELD),
    (Part::Header, HELD),
    (Part::Body, HELD),
    (Part::Body, PUBLISHED),
];

/// Pushes all parts.
fn on_all(alloc: Global, assembler: &mut Assembler) -> Result<(), Fail> {
    for (part, outcome) in PARTS {
        on_each(alloc, assembler, *part, *outcome)?;
    }
    Ok(())
}

#[test]
fn many_channels(rt: HostRuntime) -> Result<(), Fail> {
    let mut assembler = Assembler::open(rt.alloc(), 5);
    let answer = on_all(rt.alloc(), &mut assembler);
    let_go(assembler);
    answer
}
