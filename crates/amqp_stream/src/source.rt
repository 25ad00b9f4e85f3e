//! Where bytes come from: a trait whose contract says what a source reports of itself.

ghost use Rattle.std.specs.Prelude.{◌≡◌, ◌<◌, ◌≤◌, length, IfOk, OnErr};
ghost use Rattle.amqp_stream.specs.Ends.{Supply, Takes, Rises, IsEmpty, last, piece_of};

use thiserror::Error;

/// A read failed.
#[derive(Clone, Copy, Debug, PartialEq, Eq, Error)]
#[error("the read failed")]
pub struct SourceFault;

/// Where bytes come from.
pub trait Source {
    /// The bytes that are left and the number of reads, where they are reported, and a count of faults.
    ghost supply: { Self → Supply };

    /// Reads at the front of `buf`. A read of nothing is the end of input.
    fn read(&mut self, buf: &mut [u8]) -> Result<usize, SourceFault>
        requires { 0 < length buf.old }
        ensures bound { IfOk result (λ n. n ≤ length buf.old) }
        ensures takes { Takes (supply self.old) (supply self.new) (piece_of result buf.new) 1 }
        ensures end { IfOk result (λ n. n ≡ 0 → IsEmpty (supply self.new).left) }
        ensures fault { OnErr result (Rises (supply self.old).faults (supply self.new).faults) }
        ensures most { (supply self.new).faults ≤ last };
}
