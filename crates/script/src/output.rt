// Standard output, by way of a buffer.
ghost use Rattle.std.specs.Prelude.{◌≡◌, [], ◌-◌, ◌≤◌, length, take, OnOk};
ghost use Rattle.std.specs.Io.KnownBytes.{Appends};
ghost use Rattle.script.specs.Sending.{Sends};

use crate::failure::Failure;
use crate::text::Text;
use std::io::Write;

// What stands here was not written out yet.
pub type Output = Text<65536>;

// Writes out what stands there, and forgets it.
pub(crate) fn flush<W: Write>(writer: &mut W, out: &mut Output) -> Result<(), Failure<'static>>
    ensures empty { out.new.len ≡ 0 }
    ensures bytes { out.new.bytes ≡ out.old.bytes }
    ensures sent { OnOk result (Appends (W.contents writer.old) (W.contents writer.new) (take out.old.len out.old.bytes)) }
{
    let written = writer.write_all(out.as_bytes());
    out.len = 0;
    written.map_err(|error| Failure {
        what: b"standard output",
        error,
    })
}

// Flushes if there is less room than is needed.
pub(crate) fn make_room<W: Write>(
    writer: &mut W,
    out: &mut Output,
    needed: usize,
) -> Result<(), Failure<'static>>
    requires { needed ≤ 65536 }
    ensures sent { OnOk result (Sends (W.contents writer.old) (take out.old.len out.old.bytes) (W.contents writer.new) (take out.new.len out.new.bytes) []) }
    ensures room { OnOk result (needed ≤ length out.new.bytes - out.new.len) }
{
    if needed <= out.room() {
        return Ok(());
    }
    flush(writer, out)
}
