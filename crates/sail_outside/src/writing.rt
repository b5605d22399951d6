//! A whole piece, written to a sink.
ghost use Rattle.std.specs.Prelude.{◌≡◌, ◌≤◌, OnOk, OnErr, Err};
ghost use Rattle.sail_outside.specs.Faults.{Rose};
ghost use Rattle.sail_outside.specs.Bytes.{Sent, SentPart};

use crate::edge::Sink;
use crate::errors::WriteError;

/// Writes the whole piece, each byte once and in order.
///
/// At a refusal some front of the piece was written:
/// - `Fault`: the sink is at fault, and its count of faults rose.
/// - `OutOfMemory`: the sink wanted memory.
pub fn write_all<K: Sink>(sink: &mut K, piece: &[u8]) -> Result<(), WriteError>
    ensures all { OnOk result (Sent (K.given sink.old) piece.now (K.given sink.new)) }
    ensures part { OnErr result (SentPart (K.given sink.old) piece.now (K.given sink.new)) }
    ensures fault { result ≡ Err WriteError.Fault → Rose (K.faults sink.old) (K.faults sink.new) }
    ensures later { K.faults sink.old ≤ K.faults sink.new }
{
    let mut sent = 0;
    while sent < piece.len() {
        sent += sink.put(&piece[sent..])?;
    }
    Ok(())
}
