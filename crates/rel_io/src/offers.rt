//! Offers of a whole piece to a sink.
ghost use Rattle.rel_io.specs.Sinks.{Offers, written_of};

use crate::{Sink, SinkFault};

/// Offers a piece until the sink has taken it whole.
///
/// After a refusal the sink has taken a beginning of the piece, but not all of it.
pub fn offer<S: Sink>(sink: &mut S, piece: &[u8]) -> Result<(), SinkFault>
    ensures { Offers (written_of S.Sink sink.old sink.new) piece.now result }
{
    let mut done = 0;
    while done < piece.len() {
        done += sink.write(&piece[done..])?;
    }
    Ok(())
}
