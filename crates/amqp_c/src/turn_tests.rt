//! Steps of a channel, by numbers whose results are known by hand.

use crate::turns::{ChannelState, ChannelStep, feksroum_step};

/// What is kept of a channel: the size of the body, how many bytes of it have come, the state.
type Kept = (u64, u64, u32);

/// A frame: its type, class, method and size.
type Frame = (u8, u16, u16, u64);

/// What is kept before a frame and after it; its part, and whether the message is complete; of a body before, up_to and size.
const STEPS: &[(Kept, Frame, Kept, (u8, bool), (u64, u64, u64))] = &[
    ((0, 0, 0), (65, 0, 0, 0), (0, 0, 0), (0, false), (0, 0, 0)),
    ((0, 0, 0), (1, 60, 80, 0), (0, 0, 0), (0, false), (0, 0, 0)),
    ((0, 0, 0), (1, 60, 40, 0), (0, 0, 1), (1, false), (0, 0, 0)),
    ((0, 0, 1), (8, 0, 0, 0), (0, 0, 1), (0, false), (0, 0, 0)),
    ((0, 0, 1), (2, 60, 0, 9), (9, 0, 2), (2, false), (0, 0, 0)),
    ((0, 0, 1), (2, 60, 0, 0), (0, 0, 0), (2, true), (0, 0, 0)),
    ((5, 2, 2), (8, 0, 0, 0), (5, 2, 2), (0, false), (0, 0, 0)),
    ((5, 0, 2), (3, 0, 0, 2), (5, 2, 2), (3, false), (0, 2, 5)),
    ((5, 2, 2), (3, 0, 0, 3), (0, 0, 0), (3, true), (2, 5, 5)),
    ((0, 0, 3), (8, 0, 0, 0), (0, 0, 3), (0, false), (0, 0, 0)),
];

/// Frames that are not in turn, where a body has at most nine bytes, and the fault of each.
const FAULTS: &[(Kept, Frame, u8)] = &[
    ((5, 2, 2), (1, 60, 80, 0), 1),
    ((0, 0, 0), (2, 60, 0, 5), 2),
    ((0, 0, 1), (3, 0, 0, 5), 3),
    ((0, 0, 1), (2, 50, 0, 5), 4),
    ((0, 0, 1), (2, 60, 0, 10), 5),
    ((5, 2, 2), (3, 0, 0, 4), 6),
    ((5, 2, 2), (3, 0, 0, u64::MAX), 6),
    ((0, 0, 3), (1, 60, 40, 0), 7),
];

/// Numbers of which one is none, and the status of each.
const REFUSALS: &[(Kept, Frame, u8)] = &[
    ((0, 0, 3), (4, 0, 0, 0), 10),
    ((5, 5, 2), (4, 0, 0, 0), 41),
    ((0, 1, 0), (8, 0, 0, 0), 41),
    ((0, 0, 4), (8, 0, 0, 0), 41),
];

fn kept(numbers: Kept) -> ChannelState {
    ChannelState {
        size: numbers.0,
        seen: numbers.1,
        state: numbers.2,
        unused: 0,
    }
}

fn step(channel: Kept, frame: Frame) -> ChannelStep {
    feksroum_step(kept(channel), frame.0, frame.1, frame.2, frame.3, 9)
}

#[test]
fn steps_are_made(rt: HostRuntime) {
    for row in STEPS {
        let step = step(row.0, row.1);
        assert!(rt; step.status == 0 && step.fault == 0);
        assert!(rt; step.after == kept(row.2) && (step.part, step.finished) == row.3);
        assert!(rt; (step.before, step.up_to, step.size) == row.4);
    }
}

#[test]
fn faults_are_told(rt: HostRuntime) {
    for row in FAULTS {
        let step = step(row.0, row.1);
        assert!(rt; (step.status, step.fault, step.part) == (24, row.2, 0));
        assert!(rt; step.after == kept((0, 0, 3)) && !step.finished);
    }
}

#[test]
fn numbers_are_refused(rt: HostRuntime) {
    for row in REFUSALS {
        let step = step(row.0, row.1);
        assert!(rt; (step.status, step.fault, step.part) == (row.2, 0, 0));
        assert!(rt; step.after == kept((0, 0, 0)) && !step.finished);
    }
    let channel = ChannelState {
        unused: 1,
        ..kept((0, 0, 0))
    };
    assert!(rt; feksroum_step(channel, 8, 0, 0, 0, 0).status == 41);
}
