//! Writing all the bytes.
ghost use Rattle.std.specs.{Prelude.{OnOk, OnErr}, Io.KnownBytes.{Appends}};
ghost use Rattle.byte_streams.specs.Outside.{HasCause, AppendsFront};

use crate::outside::{Sink, SinkFault};

/// Writes all the bytes; on a fault maybe a prefix.
pub fn write_all<W: Sink>(out: &mut W, bytes: &[u8]) -> Result<(), SinkFault>
    ensures all { OnOk result (Appends (W.held out.old) (W.held out.new) bytes.now) }
    ensures front { OnErr result (AppendsFront (W.held out.old) (W.held out.new) bytes.now) }
    ensures cause { HasCause SinkFault.Failed (W.faults out.old) (W.faults out.new) result }
{
    let mut at = 0;
    while at < bytes.len() {
        at += out.write(&bytes[at..])?;
    }
    Ok(())
}
