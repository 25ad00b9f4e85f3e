//! Laws of frames that were made, each the contract of a function that changes nothing.

ghost use Rattle.amqp_put.specs.MadeLaws.{MadeBytesReadBack, MadeFramesAreWithin};

/// What was put at the front of a slice is decoded to the frame, at each level, whatever follows in the slice.
pub fn made_bytes_read_back()
    ensures { MadeBytesReadBack }
{}

/// What was made for a peer that takes payloads of so many bytes is within that limit, and within each larger one.
pub fn made_frames_are_within()
    ensures { MadeFramesAreWithin }
{}
