#![tactic(auto)]
// The script program: a command a line from standard input, an answer a line to standard output.
ghost use Rattle.std.specs.Prelude.{◌≡◌};
ghost use Rattle.std.specs.IoError.{raw_os_error};
ghost use Rattle.script.specs.Failures.{system_number};

mod answering;
mod archive_file;
mod arguments;
mod failure;
mod input;
mod listing;
mod outcome;
mod output;
mod paths;
mod patient;
mod serving;
mod text;
mod usage;
mod work;

use archive_file::Archives;
use arguments::{Asked, asked_for};
use failure::Failure;
use outcome::Outcome;
use paths::PATH_ROOM;
use std::env::{Env, FillError};
use std::io;
use std::process::ExitCode;

// Room for the first argument. A longer one asks for nothing.
const WORD_ROOM: usize = 16;

// What the system says of an argument that could not be copied.
// It is no `From`: both types are the library's, so the trait's impl for them cannot stand in this crate.
fn refusal(error: FillError) -> io::Error
    ensures { raw_os_error result ≡ Some (system_number error) }
{
    match error {
        FillError::NotPresent => io::Error::from_raw_os_error(22),
        FillError::TooLong => io::Error::from_raw_os_error(36),
    }
}

// How many arguments there are, up to 3.
fn argument_count(rt: &HostRuntime) -> usize {
    let mut count = 0;
    for i in 1..4 {
        if !matches!(rt.arg(i, &mut []), Err(FillError::NotPresent)) {
            count = i;
        }
    }
    count
}

// A script whose runs go into the archives of a path. Nothing is answered where the first of them cannot be made.
fn archive(rt: &HostRuntime, path: &[u8]) -> Outcome {
    match Archives::make(rt, path) {
        None => Outcome::Failed,
        archives => serving::serve(rt, archives),
    }
}

// Says of FILE why it could not be copied.
fn not_copied(rt: &HostRuntime, error: FillError) -> Outcome
    ensures { result ≡ Outcome.Failed }
{
    Failure {
        what: b"FILE",
        error: refusal(error),
    }
    .ended(rt)
}

// Does what the arguments ask for. A length stands beside each buffer: `arg` fills one, and answers how far.
// Not by `env::args`, which refuses what is no text and has no longest argument: what the program does may not change.
fn run(rt: &HostRuntime) -> Outcome {
    let mut word = [0; WORD_ROOM];
    let n = rt.arg(1, &mut word).unwrap_or(0);
    let mut path = [0; PATH_ROOM];
    let filled = rt.arg(2, &mut path);
    let path = &path[..filled.unwrap_or(0)];
    match asked_for(argument_count(rt), &word[..n], path) {
        Asked::Script => serving::serve(rt, None),
        Asked::Help => usage::help(rt),
        Asked::Version => usage::version(rt),
        Asked::Other => usage::say(rt),
        Asked::Archive => match filled {
            Ok(_) => archive(rt, path),
            Err(error) => not_copied(rt, error),
        },
        Asked::Records => match filled {
            Ok(_) => listing::list(rt, path),
            Err(error) => not_copied(rt, error),
        },
    }
}

fn main(rt: HostRuntime) -> ExitCode {
    run(&rt).status()
}
