//! Bytes go to the sink, by themselves or by way of a buffer.

ghost use Rattle.std.specs.Prelude.{◌≡◌, [], Err, OnOk, OnErr};
ghost use Rattle.mf_edge.specs.Device.{Gained, GainedFront, CountsOne};

use crate::emit::EmitFault;
use mf_base::out_buf::OutBuf;
use mf_edge::{Failed, Sink, put_all};

// Puts all of these bytes.
pub(crate) fn put_bytes<K: Sink>(bytes: &[u8], out: &mut K) -> Result<(), EmitFault>
    ensures all { OnOk result (Gained (K.state out.old) bytes.now (K.state out.new)) }
    ensures same_faults { OnOk result ((K.state out.new).faults ≡ (K.state out.old).faults) }
    ensures front { OnErr result (GainedFront (K.state out.old) bytes.now (K.state out.new)) }
    ensures failed { OnErr result (CountsOne (K.state out.old).faults (K.state out.new).faults) }
    ensures fault { OnErr result (result ≡ Err EmitFault.Write) }
{
    match put_all(out, bytes) {
        Ok(()) => Ok(()),
        Err(Failed) => Err(EmitFault::Write),
    }
}

// Puts what the buffer holds, and empties it.
pub(crate) fn flush<K: Sink>(buffer: &mut OutBuf, out: &mut K) -> Result<(), EmitFault>
    ensures all { OnOk result (Gained (K.state out.old) buffer.old.bytes (K.state out.new)) }
    ensures empty { OnOk result (buffer.new.bytes ≡ []) }
    ensures same_faults { OnOk result ((K.state out.new).faults ≡ (K.state out.old).faults) }
    ensures front { OnErr result (GainedFront (K.state out.old) buffer.old.bytes (K.state out.new)) }
    ensures failed { OnErr result (CountsOne (K.state out.old).faults (K.state out.new).faults) }
    ensures fault { OnErr result (result ≡ Err EmitFault.Write) }
    ensures capacity { buffer.new.capacity ≡ buffer.old.capacity }
{
    put_bytes(buffer.bytes(), out)?;
    buffer.clear();
    Ok(())
}
