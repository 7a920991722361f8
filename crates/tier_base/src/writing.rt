//! Writing all of a piece to a sink.

ghost use Rattle.std.specs.Prelude.{◌≡◌, is_some, OnOk, OnErr};
ghost use Rattle.std.specs.Io.KnownBytes.{Appends};
ghost use Rattle.tier_base.specs.Counts.{HasCause};
ghost use Rattle.tier_base.specs.Stream.{AppendsFront};

use crate::fault::Failed;
use crate::stream::Sink;

/// Writes all of a piece, in as many calls as the sink wants. Fails if the device call fails.
pub fn write_all<W: Sink>(sink: &mut W, piece: &[u8]) -> Result<(), Failed>
    ensures ok { OnOk result (Appends (W.written sink.old) (W.written sink.new) piece.now) }
    ensures err { OnErr result (AppendsFront (W.written sink.old) (W.written sink.new) piece.now) }
    ensures is_observable { is_some (W.written sink.new) ≡ is_some (W.written sink.old) }
    ensures cause { HasCause (W.faults sink.old) (W.faults sink.new) result }
{
    let mut done = 0;
    while done < piece.len() {
        match sink.write(&piece[done..]) {
            Ok(count) => done += count,
            Err(_) => return Err(Failed),
        }
    }
    Ok(())
}
