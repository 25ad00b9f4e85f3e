//! What is printed for `--help` and `--version`.

ghost use Rattle.std.specs.Prelude.{◌≤◌};
ghost use Rattle.amqp_program.specs.Runs.{Prints};

use amqp_stream::{Sink, write_all};

/// What `--help` prints: the commands, and the exit statuses.
pub const HELP: &str = "feksroum: reads AMQP 0-9-1 frames and writes their canonical bytes.

All commands read standard input and write standard output.

  feksroum hex        reads hex digits, and prints the canonical bytes in hex; a fault gets a
                      line of its own
  feksroum raw        reads bytes, and writes canonical bytes as it reads
  feksroum tidy       like hex, but rejects frames whose ignored parts (reserved fields, header
                      weight, unused bits, heartbeat payload) are not canonical
  feksroum lent       same output as raw, through the borrowing codec: memory is taken only
                      before the first read
  feksroum dump       reads bytes, and writes a line of text for each frame; lines show passwords
  feksroum undump     reads such lines, and writes the canonical bytes of their frames
  feksroum select RULE..
                      like raw, but only writes the frames for which the first rule that
                      matches says keep: 1 to 64 rules, each keep or drop and then any of
                      ,channel=A or ,channel=A-B  ,kind=K  ,class=A  ,method=A  in this
                      order, where K is proto, method, header, body or beat
  feksroum filter RULE..
                      like select, but by whole messages: the rules decide at the method that
                      opens a message, and its content header and bodies follow
  feksroum recut N    like raw, but cuts the body of each message into body frames of N bytes, 1
                      to 131072, the last of a message shorter
  feksroum make N     makes N frames, at most 100000, and prints the number of their bytes
                      and of their canonical bytes
  feksroum --help     prints this text
  feksroum --version  prints the version

Exit status 0 is valid input, all of it written. Others: 1 arguments unavailable, 2 invalid
arguments, 3 out of memory, 4 a read failed, 5 a write failed, 6 more than 16777216 bytes of
text, 7 BadHex, 10 UnknownFrameType, 11 BadProtocolHeader, 12 TooLarge (a payload above 131072
bytes), 13 BadFrameEnd, 14 UnknownClass, 15 UnknownMethod, 16 ShortPayload, 17 TrailingBytes,
18 NotUtf8, 19 UnknownTag, 20 TooDeep, 21 CutShort, 22 TurnsSpent, 23 NotTidy, 24 BadContent (a
frame that may not come next on its channel), 25 OpenContent (the input ends inside a message),
26 BadText (a line that is not the exact text form of any frame). From 10 on, the output for the
frames before the fault is written.
";

/// What `--version` prints: the name and the version, in one line.
pub const VERSION: &str = "feksroum 0.1.0\n";

/// Prints a text, and nothing else. Returns 0, or 5 where a write fails.
pub fn print<K: Sink>(sink: &mut K, text: &str) -> u8
    ensures printed { Prints text.now (K.store sink.old) (K.store sink.new) result }
    ensures few { result ≤ 5 }
{
    match write_all(sink, text.as_bytes()) {
        Ok(()) => 0,
        Err(_) => 5,
    }
}
