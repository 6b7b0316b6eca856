ghost use Rattle.strand_base.specs.SinkSeen.{SinkSeen, TakesFront};

/// The sink took nothing of the piece: its count of faults has risen.
#[derive(Clone, Copy, Debug, PartialEq, Eq)]
pub struct SinkFailed;

/// Where bytes are put, one piece after the other (docs/outside.md).
///
/// `seen` is what contracts know of it: the bytes taken so far, where the object tells them, the count of
/// faults, which rises at failures alone, and the number of puts, which each put raises by one or leaves
/// at 2^64 - 1.
pub trait Sink {
    ghost seen: { Self → SinkSeen };

    /// Takes some first bytes of the piece, and says how many: at least one where it has any.
    ///
    /// `SinkFailed`, only where the count of faults has risen: nothing of the piece was taken.
    fn put(&mut self, piece: &[u8]) -> Result<usize, SinkFailed>
        ensures { TakesFront (seen self.old) (seen self.new) piece.now result };
}
