// The input comes in pieces, and is cut into lines in the buffer that it is read into.
ghost use Rattle.std.specs.Prelude.{◌≡◌, ◌+◌, ◌≤◌, min, length, take, IfOk, OnOk};
ghost use Rattle.std.specs.Io.KnownBytes.{Consumes, IsAtEnd};
ghost use Rattle.script.specs.Lines.{handed, between};

use crate::failure::Failure;
use std::io::Read;

// Room for 81 bytes of an unfinished line, and a piece of 64 KiB.
const ROOM: usize = 65617;

// The first bytes are what is held of an unfinished line, and what was read ends at `end`.
#[derive(Drop)]
pub struct Input {
    pub bytes: [u8; ROOM],
    pub held: usize,
    pub end: usize,
    ghost held_bound: { held ≤ 81 },
    ghost within: { end ≤ length bytes },
}

impl Input {
    pub(crate) fn new() -> Input
        ensures { result.held ≡ 0 }
    {
        Input {
            bytes: [0; ROOM],
            held: 0,
            end: 0,
        }
    }

    // Reads a piece behind the bytes that are held, up to `end`. At the end of the input it is empty.
    pub(crate) fn read<R: Read>(&mut self, reader: &mut R) -> Result<(), Failure<'static>>
        ensures held { self.new.held ≡ self.old.held }
        ensures front { take self.old.held self.new.bytes ≡ take self.old.held self.old.bytes }
        ensures end { OnOk result (self.old.held ≤ self.new.end) }
        ensures piece { OnOk result (Consumes (R.remaining reader.old) (R.remaining reader.new) (between self.old.held self.new.end self.new.bytes)) }
        ensures last { OnOk result (self.new.end ≡ self.old.held → IsAtEnd (R.remaining reader.new)) }
    {
        match reader.read(&mut self.bytes[self.held..]) {
            Ok(count) => {
                self.end = self.held + count;
                Ok(())
            }
            Err(error) => Err(Failure {
                what: b"standard input",
                error,
            }),
        }
    }

    // Moves what is handed on of an unfinished line to the front.
    #[tactic(auto, using(crate::proofs::Cutting::kept_handed))]
    pub(crate) fn keep(&mut self, from: usize)
        requires { from ≤ self.old.end }
        ensures count { self.new.held ≡ min (length (between from self.old.end self.old.bytes)) 81 }
        ensures front { take self.new.held self.new.bytes ≡ handed (between from self.old.end self.old.bytes) }
    {
        self.held = (self.end - from).min(81);
        self.bytes.copy_within(from..from + self.held, 0);
    }
}
