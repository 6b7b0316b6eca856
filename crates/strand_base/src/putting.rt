ghost use Rattle.std.specs.Prelude.{OnOk, OnErr};
ghost use Rattle.strand_base.specs.SinkSeen.{TakesAll, TakesUpToFault};

use crate::{Sink, SinkFailed};

/// Puts the whole text, piece by piece: each put is of all that was not taken yet. It takes no memory.
///
/// `SinkFailed`, where a put failed, which was then the last: a proper front of the text was taken.
pub fn put_all<K: Sink>(out: &mut K, text: &[u8]) -> Result<(), SinkFailed>
    ensures ok { OnOk result (TakesAll (K.seen out.old) (K.seen out.new) text.now) }
    ensures err { OnErr result (TakesUpToFault (K.seen out.old) (K.seen out.new) text.now) }
{
    let mut at = 0;
    while at < text.len() {
        at += out.put(&text[at..])?;
    }
    Ok(())
}
