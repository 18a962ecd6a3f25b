//! Writing bytes whole.
ghost use Rattle.std.specs.Prelude.{◌≤◌, OnOk, OnErr};
ghost use Rattle.tn_io.specs.Counts.{Rose};
ghost use Rattle.tn_io.specs.Sink.{Grows, GrowsByPrefix};

use crate::sink::{Sink, WriteFailed};

/// Writes all the bytes, in order. It takes no memory.
///
/// `WriteFailed` comes only where the sink's count of faults rose in this call; a prefix of the
/// bytes was written then.
pub fn write_all<K: Sink>(sink: &mut K, bytes: &[u8]) -> Result<(), WriteFailed>
    ensures whole { OnOk result (Grows (K.written sink.old) (K.written sink.new) bytes.now) }
    ensures prefix { OnErr result
        (GrowsByPrefix (K.written sink.old) (K.written sink.new) bytes.now) }
    ensures failed { OnErr result (Rose (K.faults sink.old) (K.faults sink.new)) }
    ensures later { K.faults sink.old ≤ K.faults sink.new }
{
    let mut done = 0;
    // A sink that doesn't fail takes a byte or more of what is left: so this ends.
    while done < bytes.len() {
        let count = sink.write(&bytes[done..])?;
        done += count;
    }
    Ok(())
}
