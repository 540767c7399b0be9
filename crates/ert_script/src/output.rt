ghost use Rattle.std.specs.Prelude.{◌≡◌, ◌≤◌, ◌++◌, OnOk, OnErr, IsErrOf, Err, length, string_bytes, codes};
ghost use Rattle.ert_io.specs.{Faults.Rose, Known.HasRoomFor, Told.{sink_told, took, TakesFront}};
ghost use Rattle.ert_script.specs.Pages.{WritesWaiting};
ghost use Rattle.ert_ops.specs.{Labels.label_of, Lines.line_of};

use crate::label_map::LabelMap;
use crate::line::write_line;
use ert_io::{Sink, write_all};
use ert_ops::Reply;

/// Why the output stopped.
#[derive(Clone, Copy, Debug, PartialEq, Eq)]
pub enum RunErr {
    /// The sink failed.
    WriteFault,
    /// Memory ran out.
    NoMemory,
}

// How many bytes a page gathers before it is written, so that many lines take one write.
const PAGE: usize = 65_536;

/// Appends the line of a reply to the page, and writes the page out where it is full. A sink that tells its
/// room has room for both.
pub fn put<O: Sink>(
    output: &mut O,
    page: &mut String,
    reply: &Reply,
    labels: &LabelMap,
) -> Result<(), RunErr>
    requires { HasRoomFor (O.room output.old) (length (string_bytes page.old ++ line_of (label_of labels.now) reply.now)) }
    ensures ok { OnOk result
        (WritesWaiting (sink_told (O.taken output.old) (O.room output.old)) (sink_told (O.taken output.new) (O.room output.new))
        (string_bytes page.old ++ line_of (label_of labels.now) reply.now) (string_bytes page.new)) }
    ensures err { OnErr result
        (TakesFront (sink_told (O.taken output.old) (O.room output.old)) (sink_told (O.taken output.new) (O.room output.new))
        (string_bytes page.old ++ line_of (label_of labels.now) reply.now)) }
    ensures later { O.faults output.old ≤ O.faults output.new }
    ensures cause { IsErrOf result RunErr.WriteFault → Rose (O.faults output.old) (O.faults output.new) }
{
    if write_line(page, reply, labels).is_err() {
        return Err(RunErr::NoMemory);
    }
    if page.len() < PAGE {
        return Ok(());
    }
    write_page(output, page)
}

/// Writes the page out, and leaves it empty. A sink that tells its room has room for it.
pub fn write_page<O: Sink>(output: &mut O, page: &mut String) -> Result<(), RunErr>
    requires { HasRoomFor (O.room output.old) (length (string_bytes page.old)) }
    ensures ok { OnOk result (sink_told (O.taken output.new) (O.room output.new) ≡ took (sink_told (O.taken output.old) (O.room output.old)) (string_bytes page.old)) }
    ensures empty { OnOk result (string_bytes page.new ≡ codes "") }
    ensures err { OnErr result
        (TakesFront (sink_told (O.taken output.old) (O.room output.old)) (sink_told (O.taken output.new) (O.room output.new)) (string_bytes page.old)) }
    ensures only { OnErr result (result ≡ Err RunErr.WriteFault) }
    ensures later { O.faults output.old ≤ O.faults output.new }
    ensures cause { OnErr result (Rose (O.faults output.old) (O.faults output.new)) }
{
    match write_all(output, page.as_bytes()) {
        Ok(()) => {
            page.clear();
            Ok(())
        }
        Err(_) => Err(RunErr::WriteFault),
    }
}
