//! Where bytes go: a trait whose contract says what a sink reports of itself.

ghost use Rattle.std.specs.Prelude.{◌<◌, ◌≤◌, length, IfOk, OnErr};
ghost use Rattle.amqp_stream.specs.Ends.{Store, Gains, Rises, last, piece_of};

use thiserror::Error;

/// A write failed.
#[derive(Clone, Copy, Debug, PartialEq, Eq, Error)]
#[error("the write failed")]
pub struct SinkFault;

/// Where bytes go.
pub trait Sink {
    /// The bytes that were taken or their number, where they are reported, and a count of faults.
    ghost store: { Self → Store };

    /// Takes bytes from the front of a piece, at least one, and returns how many.
    fn write(&mut self, piece: &[u8]) -> Result<usize, SinkFault>
        requires { 0 < length piece.now }
        ensures some { IfOk result (λ n. (0 < n) × (n ≤ length piece.now)) }
        ensures gains { Gains (store self.old) (store self.new) (piece_of result piece.now) }
        ensures fault { OnErr result (Rises (store self.old).faults (store self.new).faults) }
        ensures most { (store self.new).faults ≤ last };
}
