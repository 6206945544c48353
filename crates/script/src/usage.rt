// How the program is started: what is said to whoever asks, or starts it with other arguments.
ghost use Rattle.std.specs.Prelude.{◌≡◌, MatchResult};

use crate::failure::Failure;
use crate::outcome::Outcome;
use crate::patient::Patient;
use std::env::Env;
use std::io;
use std::io::Write;

// Room for the name that the program was started by. One that is longer, or that there is none of, is said as the
// project's.
const NAME_ROOM: usize = 4096;

const NAME: &[u8] = b"malthobre";

// Counted on when a script is answered otherwise, or an archive is written or listed otherwise.
const VERSION: &[u8] = b"malthobre 1.0\n";

// What stands before and behind the program's name, a line each.
const LINES: [(&[u8], &[u8]); 5] = [
    (
        b"usage: ",
        b"                the script on standard input, an answer a line\n",
    ),
    (
        b"       ",
        b" archive FILE   the same, and the runs go into the new archives FILE, FILE.2 ..\n",
    ),
    (
        b"       ",
        b" records FILE   the records of the archive FILE, a line each\n",
    ),
    (b"       ", b" --help         this\n"),
    (b"       ", b" --version      the program's version\n"),
];

const STATUSES: &[u8] =
    b"status: 0 all was done; 1 an archive was refused; 2 wrong arguments;\n        3 something could not be read, written or archived\n";

fn write_usage<W: Write>(writer: &mut W, name: &[u8]) -> io::Result<()> {
    for (before, behind) in LINES {
        writer.write_all(before)?;
        writer.write_all(name)?;
        writer.write_all(behind)?;
    }
    writer.write_all(STATUSES)
}

// The usage under the name that the program was started by, or the launcher, which tells its own by a variable. It has a
// frame of its own, so that no other use of the program pays for the name's room in stack.
#[inline(never)]
fn write_named<W: Write>(rt: &HostRuntime, writer: &mut W) -> io::Result<()> {
    let mut name = [0; NAME_ROOM];
    match rt
        .var("MALTHOBRE_NAME", &mut name)
        .or_else(|_| rt.arg(0, &mut name))
    {
        Ok(length) => write_usage(writer, &name[..length]),
        Err(_) => write_usage(writer, NAME),
    }
}

// What was asked for was written to standard output, or that is said.
fn told(rt: &HostRuntime, written: io::Result<()>) -> Outcome
    ensures { MatchResult written (λ _. result ≡ Outcome.Done) (λ _. result ≡ Outcome.Failed) }
{
    match written {
        Ok(()) => Outcome::Done,
        Err(error) => Failure {
            what: b"standard output",
            error,
        }
        .ended(rt),
    }
}

pub(crate) fn help(rt: &HostRuntime) -> Outcome {
    let written = write_named(rt, &mut Patient::new(rt, rt.stdout()));
    told(rt, written)
}

pub(crate) fn version(rt: &HostRuntime) -> Outcome {
    let written = Patient::new(rt, rt.stdout()).write_all(VERSION);
    told(rt, written)
}

// Said to whoever starts the program with other arguments. Where that fails, there is nobody to tell.
pub(crate) fn say(rt: &HostRuntime) -> Outcome
    ensures { result ≡ Outcome.WrongArguments }
{
    let _ = write_named(rt, &mut Patient::new(rt, rt.stderr()));
    Outcome::WrongArguments
}
