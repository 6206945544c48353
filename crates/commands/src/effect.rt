// The machine that the lines run on, and how a `new` begins one.
ghost use Rattle.std.specs.Prelude.{◌≡◌};
ghost use Rattle.commands.specs.Effect.{line_outcome, no_machine, new_of};
ghost use Rattle.commands.specs.Turns.{set_up};

use crate::grammar::Command;
use machine::{Machine, Refusal, Stepped};

// The machine that the lines run on: none before the first accepted `new`.
#[derive(Clone, Copy)]
pub struct Session {
    pub machine: Option<Machine>,
}

// The entries of a `new` that leaves them out.
const USUAL_ENTRIES: u32 = 64;

// No line can run before the first accepted `new`.
pub fn no_machine() -> Session
    ensures { result ≡ no_machine }
{
    Session { machine: None }
}

// `new CORES BYTES ENTRIES`. A refused one leaves the old machine. Memory, owners and holders stay three parameters here
// and below: of a struct of three borrows a clause would read `lent.exit.1.1.0.now` where it says `holders.new` (tried in
// machine).
#[tactic(auto, unfolding(crate::specs::Effect::new_of), using(crate::proofs::Begun::after_new))]
fn begin(
    session: &mut Session,
    memory: &mut [u8],
    owners: &mut [u8],
    holders: &mut [u8],
    cores: u32,
    bytes: u32,
    entries: u32,
) -> Stepped
    ensures { line_outcome result session.new memory.new owners.new holders.new ≡ new_of session.old memory.old owners.old holders.old cores bytes entries }
{
    let b = bytes as usize;
    let e = entries as usize;
    let tables = (e <= owners.len()) & (e <= holders.len());
    if !((b <= 16384) & (b <= memory.len()) & tables) {
        return Stepped::refused(Refusal::LentLengths);
    }
    let called = machine::start(
        cores as usize,
        &mut memory[..b],
        &mut owners[..e],
        &mut holders[..e],
    );
    if called.answer.is_ok() {
        session.machine = Some(called.machine);
    }
    Stepped {
        answer: called.answer,
        made: called.made,
    }
}

// A command that is done with no machine, or makes one: `new`, a line that is not understood, and any other before
// the first accepted `new`.
#[tactic(auto, unfolding(crate::specs::Turns::set_up))]
pub fn set_up(
    session: &mut Session,
    memory: &mut [u8],
    owners: &mut [u8],
    holders: &mut [u8],
    command: Option<Command>,
) -> Stepped
    ensures { line_outcome result session.new memory.new owners.new holders.new ≡ set_up session.old memory.old owners.old holders.old command }
{
    match command {
        None => Stepped::refused(Refusal::NotUnderstood),
        Some(
            Command::New {
                cores,
                bytes,
                entries,
            },
        ) => begin(
            session,
            memory,
            owners,
            holders,
            cores,
            bytes,
            entries.unwrap_or(USUAL_ENTRIES),
        ),
        Some(Command::Give(_, _) | Command::Step(_) | Command::Poke(_, _) | Command::Show(_)) =>
            Stepped::refused(Refusal::NoMachine),
    }
}
