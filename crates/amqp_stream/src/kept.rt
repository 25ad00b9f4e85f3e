//! Frames that are kept and did not come in their canonical bytes.

ghost use Rattle.std.specs.Prelude.{◌≡◌, ◌+◌, ◌≤◌, length, drop};
ghost use Rattle.amqp_wire.specs.Frames.{frame_length};
ghost use Rattle.amqp_wire.specs.Judgements.{IsJudged};
ghost use Rattle.amqp_wire.specs.Looks.{laid_out};
ghost use Rattle.amqp_stream.specs.Reading.{Lies};
ghost use Rattle.amqp_stream.specs.Taking.{GathersFrame};

use crate::output_buffer::OutputBuffer;
use crate::reader::FrameReader;
use crate::stretch::Stretch;
use amqp_wire::{FrameJudgement, FrameLayout};

/// Takes the frame after the stretch, which was judged so, and returns the stretch after it. Where its canonical bytes are as
/// many as it has, they are put in its place, so that it stands. They are fewer where a key comes twice, and where a reserved
/// string or a heartbeat is not empty: then the stretch is pending, and after it they are. So it is next to other output, too.
#[inline(never)]
pub(crate) fn take_kept(
    reader: &mut FrameReader,
    out: &mut OutputBuffer,
    stretch: Stretch,
    layout: FrameLayout,
    judged: FrameJudgement,
) -> Stretch
    requires within { stretch.len ≤ length reader.old.held }
    requires lies { Lies reader.old.limit (drop stretch.len reader.old.held) layout }
    requires judged { IsJudged (laid_out layout (drop stretch.len reader.old.held)) judged }
    requires room { length out.old.bytes + stretch.len
        + frame_length (laid_out layout (drop stretch.len reader.old.held))
        ≤ out.old.room }
    ensures limit { reader.new.limit ≡ reader.old.limit }
    ensures room { out.new.room ≡ out.old.room }
    ensures gathers { GathersFrame layout reader.old.held reader.new.held
        out.old.bytes out.new.bytes stretch.len result.len }
{
    let pending = out.bytes().len();
    let raw = reader.frame_after(stretch.len, layout);
    out.push_judged(raw, judged);
    let goes_on = stretch.goes_on_with(layout.frame_len) && (stretch.len > 0 || pending == 0);
    if goes_on && out.bytes().len() - pending == layout.frame_len {
        reader.replace(stretch.len, &out.bytes()[pending..]);
        out.truncate(pending);
        return stretch.with(layout);
    }
    if stretch.len > 0 {
        out.insert(pending, reader.front(stretch.len));
    }
    reader.skip(stretch.len + layout.frame_len);
    Stretch::empty()
}
