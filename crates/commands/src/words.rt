// The words of the script, once: the grammar reads by these lists, and the answers and the listing of `records` print
// by them.
ghost use Rattle.std.specs.Prelude.{◌≡◌, map, option_map};
ghost use Rattle.commands.specs.Words.{
  after_word,
  said,
  listed,
  word_found,
  command_words,
  operation_words,
  number_word,
};

use crate::bytes::after_text;
use machine::{GuestAddress, Kind, Operation};

// A word, and what it stands for.
#[derive(Clone, Copy)]
pub(crate) struct Row<T>(pub &'static str, pub T);

#[derive(Clone, Copy)]
pub(crate) enum CommandName {
    New,
    Give,
    Step,
    Poke,
    Show,
}

// An operation, by the numbers that follow its word. Those that stand in a list are 0.
#[derive(Clone, Copy)]
pub(crate) enum OperationForm {
    Address(Operation),
    AddressAndValue(Operation),
}

pub(crate) const STEP: &str = "step";

pub(crate) const LOAD: &str = "load";

pub(crate) const LL: &str = "ll";

pub(crate) const STORE: &str = "store";

pub(crate) const SC: &str = "sc";

const POKE: &str = "poke";

const NOWHERE: GuestAddress = GuestAddress(0);

// Most lines that are looked up here are a give: the short steps are told before.
static COMMANDS: [Row<CommandName>; 5] = [
    Row("give", CommandName::Give),
    Row("show", CommandName::Show),
    Row(POKE, CommandName::Poke),
    Row(STEP, CommandName::Step),
    Row("new", CommandName::New),
];

static OPERATIONS: [Row<OperationForm>; 4] = [
    Row(LOAD, OperationForm::Address(Operation::Load(NOWHERE))),
    Row(LL, OperationForm::Address(Operation::Ll(NOWHERE))),
    Row(
        STORE,
        OperationForm::AddressAndValue(Operation::Store(NOWHERE, 0)),
    ),
    Row(
        SC,
        OperationForm::AddressAndValue(Operation::Sc(NOWHERE, 0)),
    ),
];

// What follows a word, and the space after it, that some bytes begin with.
pub(crate) fn after_word<'a>(word: &str, bytes: &'a [u8]) -> Option<&'a [u8]>
    ensures { option_map (λ rest. rest.now) result ≡ after_word word.now bytes.now }
{
    after_text(b" ", after_text(word.as_bytes(), bytes)?)
}

// What such a word of a list stands for, and what follows it.
#[tactic(auto, unfolding(crate::specs::Words::said))]
fn said<'a, T: Copy>(words: &[Row<T>], bytes: &'a [u8]) -> Option<(T, &'a [u8])>
    ensures { option_map word_found result ≡ said (map listed words.now) bytes.now }
{
    for row in words {
        if let Some(rest) = after_word(row.0, bytes) {
            return Some((row.1, rest));
        }
    }
    None
}

pub(crate) fn command_said(line: &[u8]) -> Option<(CommandName, &[u8])>
    ensures { option_map word_found result ≡ said command_words line.now }
{
    said(&COMMANDS, line)
}

pub(crate) fn operation_said(bytes: &[u8]) -> Option<(OperationForm, &[u8])>
    ensures { option_map word_found result ≡ said operation_words bytes.now }
{
    said(&OPERATIONS, bytes)
}

// The word of a kind's number. No record of a block that is accepted has a number that is no kind's.
pub fn number_word(kind: u8) -> &'static str
    ensures { result.now ≡ number_word kind }
{
    match Kind::of(kind) {
        None => "unknown",
        Some(Kind::Load) => LOAD,
        Some(Kind::Ll) => LL,
        Some(Kind::Store) => STORE,
        Some(Kind::Success) => "sc-success",
        Some(Kind::Failure) => "sc-failure",
        Some(Kind::Poke) => POKE,
    }
}
