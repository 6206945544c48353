// The script on standard input is answered, piece by piece.
ghost use Rattle.std.specs.Prelude.{◌≡◌, true, [], ltb, ◌≤◌, length, take, drop, option_and_then, IfSome, IfOk, OnOk};
ghost use Rattle.std.specs.Io.KnownBytes.{Appends};
ghost use Rattle.script.specs.Lines.{unfinished, handed, last_line, handed_on, lines_of};
ghost use Rattle.script.specs.Output.{last_number, numbered, output_of};
ghost use Rattle.script.specs.Answering.{work_of, lines_in};
ghost use Rattle.script.specs.Archiving.{writer_in, whole_in, listed, Follows, StaysWhole};
ghost use Rattle.script.specs.Outcomes.{outcome_of};
ghost use Rattle.script.specs.Serving.{state_of, Answered, AnsweredSome};

use crate::answering::{ANSWER_ROOM, Event, answer_lines};
use crate::archive_file::Archives;
use crate::failure::Failure;
use crate::input::Input;
use crate::outcome::Outcome;
use crate::output::Output;
use crate::patient::Patient;
use crate::text::Text;
use crate::work::Work;
use crate::{archive_file, output};
use std::io;
use std::io::{Read, Write};

// What is carried from piece to piece.
#[derive(Drop)]
struct Serving<'a> {
    work: Work,
    archives: Option<Archives<'a>>,
    out: Output,
}

// An event goes to the archives, where there are any.
fn follow(rt: &HostRuntime, archives: &mut Option<Archives<'_>>, event: Option<Event>)
    ensures records { Follows (option_and_then writer_in archives.old) (listed event) (option_and_then writer_in archives.new) }
    ensures whole { StaysWhole (whole_in archives.old) (option_and_then writer_in archives.old) (listed event) (whole_in archives.new) (option_and_then writer_in archives.new) }
{
    if let (Some(archives), Some(event)) = (archives, event) {
        archives.follow(rt, event);
    }
}

impl Serving<'_> {
    // Answers lines up to a stop, and hands the event that it stopped for to the archives. Answers how far it came.
    fn answer_some<W: Write>(
        &mut self,
        rt: &HostRuntime,
        writer: &mut W,
        bytes: &[u8],
    ) -> Result<usize, Failure<'static>>
        ensures within { IfOk result (λ from. from ≤ length bytes.now) }
        ensures some { IfOk result (λ from. AnsweredSome (state_of self.old (W.contents writer.old)) (lines_in bytes.now) (state_of self.new (W.contents writer.new)) (lines_in (drop from bytes.now))) }
        ensures left { IfOk result (λ from. unfinished (drop from bytes.now) ≡ unfinished bytes.now) }
        ensures none { IfOk result (λ from. from ≡ 0 → ltb self.old.work.answered last_number ≡ true → lines_in bytes.now ≡ []) }
    {
        output::make_room(writer, &mut self.out, ANSWER_ROOM)?;
        let stop = answer_lines(
            self.archives.is_some(),
            &mut self.work,
            bytes,
            &mut self.out,
        );
        follow(rt, &mut self.archives, stop.event);
        Ok(stop.from)
    }

    // Answers all whole lines of a piece, while a line can have a number. Answers where what is left begins.
    fn answer_whole<W: Write>(
        &mut self,
        rt: &HostRuntime,
        writer: &mut W,
        bytes: &[u8],
    ) -> Result<usize, Failure<'static>>
        ensures within { IfOk result (λ from. from ≤ length bytes.now) }
        ensures lines { OnOk result (Answered (state_of self.old (W.contents writer.old)) (numbered (work_of self.old.work) (lines_in bytes.now)) (state_of self.new (W.contents writer.new))) }
        ensures left { IfOk result (λ from. ltb self.new.work.answered last_number ≡ true → drop from bytes.now ≡ unfinished bytes.now) }
    {
        let mut from = 0;
        while from < bytes.len() {
            let count = self.answer_some(rt, writer, &bytes[from..])?;
            if count == 0 {
                return Ok(from);
            }
            from += count;
        }
        Ok(from)
    }

    // Answers all whole lines of a piece, writes the answers out, and keeps what is left.
    fn serve_piece<W: Write>(
        &mut self,
        rt: &HostRuntime,
        writer: &mut W,
        input: &mut Input,
    ) -> Result<(), Failure<'static>>
        ensures lines { OnOk result (Answered (state_of self.old (W.contents writer.old)) (numbered (work_of self.old.work) (lines_in (take input.old.end input.old.bytes))) (state_of self.new (W.contents writer.new))) }
        ensures all_out { OnOk result (self.new.out.len ≡ 0) }
        ensures held { OnOk result (ltb self.new.work.answered last_number ≡ true → take input.new.held input.new.bytes ≡ handed (unfinished (take input.old.end input.old.bytes))) }
    {
        let from = self.answer_whole(rt, writer, &input.bytes[..input.end])?;
        output::flush(writer, &mut self.out)?;
        input.keep(from);
        Ok(())
    }

    // The end of the input: what stands after the last newline is a line too, unless it is empty (RULES 8.9). What is held
    // has no newline.
    fn serve_last<W: Write>(
        &mut self,
        rt: &HostRuntime,
        writer: &mut W,
        input: &mut Input,
    ) -> Result<(), Failure<'static>>
        requires { lines_in (take input.old.held input.old.bytes) ≡ [] }
        ensures line { OnOk result (Answered (state_of self.old (W.contents writer.old)) (numbered (work_of self.old.work) (handed_on (last_line (take input.old.held input.old.bytes)))) (state_of self.new (W.contents writer.new))) }
        ensures all_out { OnOk result (self.old.out.len ≡ 0 → self.new.out.len ≡ 0) }
    {
        let held = input.held;
        if held == 0 {
            return Ok(());
        }
        input.bytes[held] = b'\n';
        input.end = held + 1;
        self.serve_piece(rt, writer, input)
    }

    // Answers the input to its end, while a line can have a number.
    fn serve_all<R: Read, W: Write>(
        &mut self,
        rt: &HostRuntime,
        reader: &mut R,
        writer: &mut W,
    ) -> Result<(), Failure<'static>>
        ensures lines { OnOk result (IfSome (R.remaining reader.old) (λ input. Answered (state_of self.old (W.contents writer.old)) (numbered (work_of self.old.work) (handed_on (lines_of input))) (state_of self.new (W.contents writer.new)))) }
        ensures all_out { OnOk result (self.old.out.len ≡ 0 → self.new.out.len ≡ 0) }
    {
        let mut input = Input::new();
        // Nothing says that an input ends.
        for _ in 0..u64::MAX {
            input.read(reader)?;
            if input.end == input.held {
                return self.serve_last(rt, writer, &mut input);
            }
            self.serve_piece(rt, writer, &mut input)?;
            if self.work.answered == u64::MAX {
                return Ok(());
            }
        }
        Err(Failure {
            what: b"standard input",
            error: io::Error::from(io::ErrorKind::TimedOut),
        })
    }
    // Ends the archives, where there are any. All is done where they are whole, and so were before.
    fn end(&mut self, rt: &HostRuntime) -> Outcome
        ensures outcome { result ≡ outcome_of self.new.archives }
        ensures whole { whole_in self.new.archives ≡ true → whole_in self.old.archives ≡ true }
    {
        if let Some(archives) = &mut self.archives {
            archives.end(rt);
        }
        archive_file::outcome_of(&self.archives)
    }
}

// Answers a script, from its first line on. Its runs go into archives, if there are any, which are ended then.
fn serve_script<R: Read, W: Write>(
    rt: &HostRuntime,
    reader: &mut R,
    writer: &mut W,
    archives: &mut Option<Archives<'_>>,
) -> Result<Outcome, Failure<'static>>
    ensures outcome { IfOk result (λ outcome. outcome ≡ outcome_of archives.new) }
    ensures output { OnOk result (IfSome (R.remaining reader.old) (λ input. Appends (W.contents writer.old) (W.contents writer.new) (output_of input))) }
{
    let mut serving = Serving {
        work: Work::fresh(),
        archives: archives.take(),
        out: Text::new(),
    };
    match serving.serve_all(rt, reader, writer) {
        Ok(()) => {
            let outcome = serving.end(rt);
            *archives = serving.archives.take();
            Ok(outcome)
        }
        Err(failure) => {
            failure.say(rt);
            let _ = serving.end(rt);
            Err(failure)
        }
    }
}

// Answers the script on standard input. What failed was said by then.
pub(crate) fn serve(rt: &HostRuntime, mut archives: Option<Archives<'_>>) -> Outcome {
    let mut reader = Patient::new(rt, rt.stdin());
    let mut writer = Patient::new(rt, rt.stdout());
    serve_script(rt, &mut reader, &mut writer, &mut archives).unwrap_or(Outcome::Failed)
}
