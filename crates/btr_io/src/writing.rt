//! Writing all bytes of a slice to a sink.
ghost use Rattle.std.specs.Prelude.{◌≡◌, ◌++◌, OnOk, OnErr};
ghost use Rattle.btr_io.specs.Faults.{HasCause};
ghost use Rattle.btr_io.specs.Bytes.{TookPart};

use crate::{Failed, Sink};

/// Writes all of these bytes, in as many calls of the sink as that takes.
///
/// After an `Err` the sink took a prefix of the bytes, and not all of them. Takes no memory. The cost is that of the sink's
/// calls.
pub fn write_all<K: Sink>(sink: &mut K, bytes: &[u8]) -> Result<(), Failed>
    ensures written { K.is_observable → OnOk result (K.written sink.new ≡ K.written sink.old ++ bytes.now) }
    ensures part { K.is_observable → OnErr result (TookPart (K.written sink.old) bytes.now (K.written sink.new)) }
    ensures cause { HasCause (K.faults sink.old) (K.faults sink.new) result }
{
    let mut rest = bytes;
    while !rest.is_empty() {
        let n = sink.write(rest)?;
        rest = &rest[n..];
    }
    Ok(())
}
