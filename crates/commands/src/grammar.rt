// The grammar: what command a line is.
ghost use Rattle.std.specs.Prelude.{◌≡◌};
ghost use Rattle.commands.specs.Grammar.{
  numbers_of,
  operation_with,
  operation_in,
  give_command,
  command_with,
  too_long,
  command_of,
  short_step,
};

use crate::decimal::number_ahead;
use crate::words::{CommandName, OperationForm, STEP, after_word, command_said, operation_said};
use machine::{GuestAddress, Operation};

// A line that is understood says one of these. An entry count that is left out stays left out.
#[derive(Clone, Copy)]
pub enum Command {
    New {
        cores: u32,
        bytes: u32,
        entries: Option<u32>,
    },
    Give(u32, Operation),
    Step(u32),
    Poke(GuestAddress, u32),
    Show(GuestAddress),
}

// One to three numbers, with single spaces between them.
#[derive(Clone, Copy)]
pub enum Numbers {
    One(u32),
    Two(u32, u32),
    Three(u32, u32, u32),
}

// The numbers that are the whole of some bytes. No `split`: each number is cut off as in `give_in`, which hands on whole
// what follows it, and as `numbers_of` says it. An empty last field counts too, and is no number.
#[tactic(auto, unfolding(crate::specs::Grammar::numbers_of))]
fn numbers_in(bytes: &[u8]) -> Option<Numbers>
    ensures { result ≡ numbers_of bytes.now }
{
    let (a, rest) = number_ahead(bytes)?;
    let Some(rest) = rest else {
        return Some(Numbers::One(a));
    };
    let (b, rest) = number_ahead(rest)?;
    let Some(rest) = rest else {
        return Some(Numbers::Two(a, b));
    };
    let (c, rest) = number_ahead(rest)?;
    match rest {
        Some(_) => None,
        None => Some(Numbers::Three(a, b, c)),
    }
}

// An operation with the numbers that it takes.
fn operation_with(form: OperationForm, numbers: Numbers) -> Option<Operation>
    ensures { result ≡ operation_with form numbers }
{
    match (form, numbers) {
        (OperationForm::Address(o), Numbers::One(a)) => {
            Operation::of(o.code(), GuestAddress(a), 0)
        }
        (OperationForm::AddressAndValue(o), Numbers::Two(a, v)) => {
            Operation::of(o.code(), GuestAddress(a), v)
        }
        _ => None,
    }
}

// A word of the list, and the numbers that its operation takes.
#[tactic(auto, unfolding(crate::specs::Grammar::operation_in))]
fn operation_in(bytes: &[u8]) -> Option<Operation>
    ensures { result ≡ operation_in bytes.now }
{
    let (form, rest) = operation_said(bytes)?;
    operation_with(form, numbers_in(rest)?)
}

#[tactic(auto, unfolding(crate::specs::Grammar::give_command))]
fn give_in(bytes: &[u8]) -> Option<Command>
    ensures { result ≡ give_command bytes.now }
{
    let (core, rest) = number_ahead(bytes)?;
    operation_in(rest?).map(|operation| Command::Give(core, operation))
}

// A command of numbers alone.
fn command_with(name: CommandName, numbers: Numbers) -> Option<Command>
    ensures { result ≡ command_with name numbers }
{
    match (name, numbers) {
        (CommandName::New, Numbers::Two(cores, bytes)) => Some(Command::New {
            cores,
            bytes,
            entries: None,
        }),
        (CommandName::New, Numbers::Three(cores, bytes, entries)) => Some(Command::New {
            cores,
            bytes,
            entries: Some(entries),
        }),
        (CommandName::Step, Numbers::One(core)) => Some(Command::Step(core)),
        (CommandName::Poke, Numbers::Two(a, v)) => Some(Command::Poke(GuestAddress(a), v)),
        (CommandName::Show, Numbers::One(a)) => Some(Command::Show(GuestAddress(a))),
        _ => None,
    }
}

fn too_long(line: &[u8]) -> bool
    ensures { result ≡ too_long line.now }
{
    80 < line.len()
}

// The command that a line is, if it is understood.
#[tactic(auto, unfolding(crate::specs::Grammar::command_of))]
pub fn read_line(line: &[u8]) -> Option<Command>
    ensures { result ≡ command_of line.now }
{
    if too_long(line) {
        return None;
    }
    match command_said(line)? {
        (CommandName::Give, rest) => give_in(rest),
        (name, rest) => command_with(name, numbers_in(rest)?),
    }
}

// How long a step of a core with one digit is, without its newline.
pub const SHORT_STEP: usize = STEP.len() + 2;

// The core of a step, where the bytes begin with a step of a core with one digit, and its newline.
#[tactic(auto, unfolding(crate::specs::Grammar::short_step))]
pub fn short_step(bytes: &[u8]) -> Option<u32>
    ensures { result ≡ short_step bytes.now }
{
    match after_word(STEP, bytes)? {
        [digit, newline, ..] if digit.is_ascii_digit() & (*newline == b'\n') => {
            Some(u32::from(*digit - b'0'))
        }
        _ => None,
    }
}
