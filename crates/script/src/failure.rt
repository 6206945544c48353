// What is said on standard error of a call that failed.
ghost use Rattle.std.specs.Prelude.{◌≡◌};
ghost use Rattle.script.specs.Failures.{ReasonOf};

use crate::outcome::Outcome;
use crate::patient::Patient;
use crate::text::Text;
use std::fmt::Write as _;
use std::io;
use std::io::Write as _;

// Room for the text of any error.
const REASON_ROOM: usize = 256;

// A call that failed: on what, and why.
#[derive(Drop)]
pub struct Failure<'a> {
    pub what: &'a [u8],
    pub error: io::Error,
}

// The text without the system's number, which is put in brackets behind it.
fn reason(text: &str) -> &str
    ensures { ReasonOf text.now result.now }
{
    match text.split_once(" (os error ") {
        Some((before, _)) => before,
        None => text,
    }
}

// Writes to standard error. Where that fails, there is nobody to tell.
pub(crate) fn say(rt: &HostRuntime, text: &[u8]) {
    let _ = Patient::new(rt, rt.stderr()).write_all(text);
}

impl Failure<'_> {
    // Writes a line: what failed, a colon and why.
    pub(crate) fn say(&self, rt: &HostRuntime) {
        let mut text = Text::<REASON_ROOM>::new();
        let error = &self.error;
        let _ = write!(text, "{error}");
        say(rt, self.what);
        say(rt, b": ");
        if let Ok(all) = std::str::from_utf8(text.as_bytes()) {
            say(rt, reason(all).as_bytes());
        }
        say(rt, b"\n");
    }

    // The same, where the program ends by it.
    pub(crate) fn ended(&self, rt: &HostRuntime) -> Outcome
        ensures { result ≡ Outcome.Failed }
    {
        self.say(rt);
        Outcome::Failed
    }
}
