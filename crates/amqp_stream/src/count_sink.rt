//! A sink that counts.

ghost use Rattle.std.specs.Prelude.{◌≡◌, ◌↔◌, ◌-◌, ◌<◌, ◌≤◌, length, min, IfOk, IsErr, OnOk, OnErr};
ghost use Rattle.amqp_stream.specs.Ends.{Gains, Rises, piece_of, last};
ghost use Rattle.amqp_stream.specs.Scripts.{count_of};

use crate::sink::{Sink, SinkFault};
use std::marker::Model;

/// The number of bytes that were taken, of which none is kept. A write fails where no further byte
/// can be counted.
#[derive(Drop)]
pub struct CountSink {
    total: u64,
    faults: u64,
}

impl Model for CountSink {
    ghost use Rattle.std.specs.Prelude.{◌≡◌, ◌<◌};
    ghost use Rattle.amqp_stream.specs.Ends.{last};
    ghost use Rattle.amqp_stream.specs.Scripts.{Counted};

    ghost Value = { Counted };

    ghost view = { λ sink. record { total = sink.total; faults = sink.faults } };

    ghost invariant = { λ sink. sink.total < last → sink.faults ≡ 0 };
}

impl CountSink {
    /// Nothing was taken, and no write has failed yet.
    pub fn new() -> CountSink
        ensures { result ≡ record { total = 0; faults = 0 } }
    {
        CountSink {
            total: 0,
            faults: 0,
        }
    }

    /// How many bytes were taken. No write fails below the last number.
    pub fn total(&self) -> u64
        ensures value { result ≡ self.now.total }
        ensures faultless { self.now.total < last → self.now.faults ≡ 0 }
    {
        self.total
    }
}

impl Sink for CountSink {
    ghost store = { count_of };

    fn write(&mut self, piece: &[u8]) -> Result<usize, SinkFault>
        requires { 0 < length piece.now }
        ensures some { IfOk result (λ n. (0 < n) × (n ≤ length piece.now)) }
        ensures gains { Gains (count_of self.old) (count_of self.new) (piece_of result piece.now) }
        ensures fault { OnErr result (Rises self.old.faults self.new.faults) }
        ensures most { self.new.faults ≤ last }

        // A write takes as much as can be counted, and fails exactly where that is nothing.
        ensures full { IsErr result ↔ (self.old.total ≡ last) }
        ensures count { IfOk result (λ n. n ≡ min (length piece.now) (last - self.old.total)) }
        ensures faultless { OnOk result (self.new.faults ≡ self.old.faults) }
    {
        let room = u64::MAX - self.total;
        if room == 0 {
            self.faults = self.faults.saturating_add(1);
            return Err(SinkFault);
        }
        let count = (piece.len() as u64).min(room);
        self.total += count;
        Ok(count as usize)
    }
}
