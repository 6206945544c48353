// What reads or writes by one of these asks again: at once where a signal interrupted the call, and after a short sleep
// where it would block.
ghost use Rattle.std.specs.Prelude.{◌≡◌, IfErr};
ghost use Rattle.std.specs.IoError.{error_kind};
ghost use Rattle.std.specs.Io.{ReadsAtMost, WritesAtMost};
ghost use Rattle.std.specs.Io.KnownBytes.{Keeps, ReadConsumes, WriteAppends};
ghost use Rattle.script.specs.Patience.{passes, Stays};

use std::io::{ErrorKind, Read, Write};
use std::time::Duration;
use std::{io, thread};

// How many thousandths of a second a call that would block is let be.
const NAP: u64 = 1;

// Whether a call that failed so is tried again. Where it would block this sleeps first.
fn again(rt: &HostRuntime, error: &io::Error) -> bool
    ensures { result ≡ passes (error_kind error.now) }
{
    match error.kind() {
        ErrorKind::Interrupted => true,
        ErrorKind::WouldBlock => {
            thread::sleep(rt, Duration::from_millis(NAP));
            true
        }
        _ => false,
    }
}

// What is said once the turns are counted out: every loop has to end.
fn gave_up() -> io::Error
    ensures { error_kind result ≡ ErrorKind.TimedOut }
{
    io::Error::from(ErrorKind::TimedOut)
}

fn read_patiently<R: Read>(rt: &HostRuntime, reader: &mut R, buf: &mut [u8]) -> io::Result<usize>
    ensures bound { ReadsAtMost result buf.new }
    ensures bytes { ReadConsumes (R.remaining reader.old) (R.remaining reader.new) result buf.new }
    ensures stays { IfErr result (λ error. Stays (error_kind error)) }
{
    for _ in 0..u64::MAX {
        match reader.read(buf) {
            Ok(count) => return Ok(count),
            Err(error) => {
                if !again(rt, &error) {
                    return Err(error);
                }
            }
        }
    }
    Err(gave_up())
}

fn write_patiently<W: Write>(rt: &HostRuntime, writer: &mut W, buf: &[u8]) -> io::Result<usize>
    ensures bound { WritesAtMost result buf.now }
    ensures bytes { WriteAppends (W.contents writer.old) (W.contents writer.new) result buf.now }
    ensures stays { IfErr result (λ error. Stays (error_kind error)) }
{
    for _ in 0..u64::MAX {
        match writer.write(buf) {
            Ok(count) => return Ok(count),
            Err(error) => {
                if !again(rt, &error) {
                    return Err(error);
                }
            }
        }
    }
    Err(gave_up())
}

// A reader or a writer, and the clock to sleep by.
#[derive(Drop)]
pub struct Patient<'a, T> {
    rt: &'a HostRuntime,
    pub inner: T,
}

impl<'a, T> Patient<'a, T> {
    pub(crate) fn new(rt: &'a HostRuntime, inner: T) -> Patient<'a, T>
        ensures { result.inner ≡ inner }
    {
        Patient { rt, inner }
    }
}

impl<R: Read> Read for Patient<'_, R> {
    ghost remaining = { λ patient. R.remaining patient.inner };

    fn read(&mut self, buf: &mut [u8]) -> io::Result<usize>
        ensures bound { ReadsAtMost result buf.new }
        ensures bytes { ReadConsumes (R.remaining self.old.inner) (R.remaining self.new.inner) result buf.new }
        ensures stays { IfErr result (λ error. Stays (error_kind error)) }
    {
        read_patiently(self.rt, &mut self.inner, buf)
    }
}

impl<W: Write> Write for Patient<'_, W> {
    ghost contents = { λ patient. W.contents patient.inner };

    fn write(&mut self, buf: &[u8]) -> io::Result<usize>
        ensures bound { WritesAtMost result buf.now }
        ensures bytes { WriteAppends (W.contents self.old.inner) (W.contents self.new.inner) result buf.now }
        ensures stays { IfErr result (λ error. Stays (error_kind error)) }
    {
        write_patiently(self.rt, &mut self.inner, buf)
    }

    fn flush(&mut self) -> io::Result<()>
        ensures bytes { Keeps (W.contents self.old.inner) (W.contents self.new.inner) }
    {
        self.inner.flush()
    }
}
