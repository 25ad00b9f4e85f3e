//! A value for each channel: each call once, and memory that is refused.

use amqp_turns::Channels;
use amqp_vectors::asking::same;
use std::test::Fail;

/// The values of the channels 1 to 3.
fn values(channels: &Channels<u8>) -> [Option<u8>; 3] {
    [
        channels.get(1).copied(),
        channels.get(2).copied(),
        channels.get(3).copied(),
    ]
}

#[test]
fn channels_have_values(rt: HostRuntime) -> Result<(), Fail> {
    let mut channels = Channels::new(rt.alloc());
    same(channels.is_empty(), true)?;
    same(channels.least(), None)?;
    channels.insert(1, 10)?;
    channels.insert(2, 20)?;
    channels.insert(1, 11)?;
    same(channels.least(), Some(1))?;
    if let Some(value) = channels.get_mut(2) {
        *value = 21;
    }
    same(values(&channels), [Some(11), Some(21), None])?;
    same(channels.count(|value| *value > 11), 1)?;
    same(channels.remove(1), Some(11))?;
    same(channels.remove(3), None)?;
    same(values(&channels), [None, Some(21), None])?;
    same(channels.least(), Some(2))?;
    channels.insert(3, 30)?;
    same(channels.least(), Some(2))?;
    same(channels.is_empty(), false)
}

/// Where memory runs out, each channel has the value that it had.
#[test]
fn refused_memory_leaves_values(rt: HostRuntime) -> Result<(), Fail> {
    let mut channels = Channels::new(rt.alloc());
    let mut held = [None; 3];
    for (place, value) in [(0, 10), (1, 20), (0, 11), (2, 30)] {
        if channels.insert(place as u16 + 1, value).is_ok() {
            held[place] = Some(value);
        }
        same(values(&channels), held)?;
    }
    Ok(())
}
