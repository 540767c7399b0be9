ghost use Rattle.std.specs.Prelude.{◌≡◌, ◌++◌, ◌<◌, ◌≤◌, length, take, IfErr, OnOk, OnErr};
ghost use Rattle.ert_io.specs.{Faults.Rose, Known.{more_by, HasRoomFor}, Writing.written_of};

use crate::sink::Sink;
use thiserror::Error;

/// Why `write_all` didn't append all bytes.
#[derive(Clone, Copy, Debug, PartialEq, Eq, Error)]
pub enum WriteErr {
    /// A write failed after the first `written` bytes were appended.
    #[error("a write failed after {written} bytes")]
    WriteFault { written: usize },
}

/// Appends all of `bytes`, which fit the room of the sink. It takes no memory.
pub fn write_all<K: Sink>(sink: &mut K, bytes: &[u8]) -> Result<(), WriteErr>
    requires { HasRoomFor (K.room sink.old) (length bytes.now) }
    ensures ok { OnOk result (K.taken sink.new ≡ K.taken sink.old ++ bytes.now) }
    ensures err { IfErr result (λ e. K.taken sink.new ≡ K.taken sink.old ++ take (written_of e) bytes.now) }
    ensures written { IfErr result (λ e. written_of e < length bytes.now) }
    ensures room { OnOk result (K.room sink.old ≡ more_by (length bytes.now) (K.room sink.new)) }
    ensures room_left { IfErr result (λ e. K.room sink.old ≡ more_by (written_of e) (K.room sink.new)) }
    ensures later { K.faults sink.old ≤ K.faults sink.new }
    ensures cause { OnErr result (Rose (K.faults sink.old) (K.faults sink.new)) }
{
    let mut written = 0;
    'writes: while written < bytes.len() {
        match sink.write(&bytes[written..]) {
            Ok(count) => written += count,
            Err(_) => return Err(WriteErr::WriteFault { written }),
        }
    }
    Ok(())
}
