ghost use Rattle.std.specs.Prelude.{◌≡◌, [], true, length, IfOk, Ok};
ghost use Rattle.strand_base.specs.Counts.{next};
ghost use Rattle.strand_base.specs.SinkInMemory.{sink_never_failing, keeping};
ghost use Rattle.strand_base.specs.SinkSeen.{TakesFront};

use crate::kept_bytes::KeptBytes;
use crate::{OutOfMemory, Sink, SinkFailed};
use std::alloc::Global;
use std::marker::Model;

/// A sink in memory that takes each piece whole and never fails: the count of faults is always 0. It
/// keeps and tells what it takes as long as that fits its room.
#[derive(Drop)]
pub struct NeverSink {
    kept: KeptBytes,
    puts: u64,
}

impl Model for NeverSink {
    ghost use Rattle.strand_base.specs.SinkInMemory.{NeverFailing};

    ghost Value = { NeverFailing };

    ghost view = { λ s. record { kept = s.kept; puts = s.puts } };
}

impl NeverSink {
    /// A sink that keeps at most `room` bytes, for which it takes memory here.
    pub fn new(alloc: Global, room: usize) -> Result<NeverSink, OutOfMemory>
        ensures { IfOk result (λ sink. sink ≡ record {
          kept = record { bytes = []; room = room; whole = true };
          puts = 0;
        }) }
    {
        Ok(NeverSink {
            kept: KeptBytes::new(alloc, room)?,
            puts: 0,
        })
    }

    /// The bytes that it keeps.
    pub fn bytes(&self) -> &[u8]
        ensures { result.now ≡ self.now.kept.bytes }
    {
        self.kept.bytes()
    }
}

impl Sink for NeverSink {
    ghost seen = { sink_never_failing };

    /// Takes the whole piece.
    fn put(&mut self, piece: &[u8]) -> Result<usize, SinkFailed>
        ensures takes { TakesFront (sink_never_failing self.old) (sink_never_failing self.new)
            piece.now result }
        ensures ok { result ≡ Ok (length piece.now) }
        ensures kept { self.new ≡ record {
          kept = keeping piece.now self.old.kept;
          puts = next self.old.puts;
        } }
    {
        self.puts = self.puts.saturating_add(1);
        self.kept.keep(piece);
        Ok(piece.len())
    }
}
