// The line that an answer is written as.
ghost use Rattle.std.specs.Prelude.{◌≡◌, ◌+◌, ◌≤◌, [], ◌∷◌, ◌++◌, length, leb, Ok};
ghost use Rattle.rules.specs.declared.answers.Answer.TheVariants.{Done};
ghost use Rattle.commands.specs.Bytes.{put_in};
ghost use Rattle.commands.specs.Decimal.{decimal};
ghost use Rattle.commands.specs.Texts.{
  values_text,
  number_text,
  answer_words,
  words_room,
  rest_of,
  rest_refused,
  rest_room,
  line_room,
  line_put,
  line_end,
  refused_put,
  refused_end,
  two_digits,
  line_number,
  counted_on,
  digits_of,
  PutBefore,
};

use crate::bytes::put;
use crate::decimal::put_decimal;
use crate::words::{LL, LOAD, SC, STORE};
use machine::{Answer, Delivered, Refusal, number_of};

// `out` and `at` stay two parameters: the public `answer_line` takes the two, its clauses `text`, `end` and `fits`
// speak of them, and lent bytes of any length must do.

// A value, after a space.
#[tactic(auto, using(crate::proofs::Placed::value_few, crate::proofs::Placed::put_both))]
fn put_value(value: u32, out: &mut [u8], at: usize) -> usize
    requires { at + 11 ≤ length out.old }
    ensures out_after { out.new ≡ put_in (values_text (value ∷ [])) at out.old }
    ensures value { result ≡ at + length (values_text (value ∷ [])) }
    ensures upper_bound { result ≤ at + 11 }
{
    let to = put(b" ", out, at);
    put_decimal(u64::from(value), out, to)
}

// A word, and its value.
#[tactic(auto, using(crate::proofs::Placed::value_few, crate::proofs::Placed::put_both))]
fn put_valued(word: &[u8], value: u32, out: &mut [u8], at: usize) -> usize
    requires { at + length word.now + 11 ≤ length out.old }
    ensures out_after { out.new ≡ put_in (word.now ++ values_text (value ∷ [])) at out.old }
    ensures value { result ≡ at + length (word.now ++ values_text (value ∷ [])) }
    ensures upper_bound { result ≤ at + length word.now + 11 }
{
    let to = put(word, out, at);
    put_value(value, out, to)
}

// What a finished operation answers.
#[tactic(auto, unfolding(crate::specs::Texts::answer_words))]
fn put_delivered(delivered: Delivered, out: &mut [u8], at: usize) -> usize
    requires { at + words_room ≤ length out.old }
    ensures out_after { out.new ≡ put_in (answer_words (Ok (Done delivered))) at out.old }
    ensures value { result ≡ at + length (answer_words (Ok (Done delivered))) }
    ensures upper_bound { result ≤ at + words_room }
{
    match delivered {
        Delivered::Load(v) => put_valued(LOAD.as_bytes(), v, out, at),
        Delivered::Ll(v) => put_valued(LL.as_bytes(), v, out, at),
        Delivered::Store => put(STORE.as_bytes(), out, at),
        Delivered::Sc(v) => put_valued(SC.as_bytes(), v, out, at),
    }
}

// No `Display`: it would have these arms too, and a formatter between them and the lent bytes.
#[tactic(auto, unfolding(crate::specs::Texts::answer_words))]
fn put_words(answer: Answer, out: &mut [u8], at: usize) -> usize
    requires { at + words_room ≤ length out.old }
    ensures out_after { out.new ≡ put_in (answer_words (Ok answer)) at out.old }
    ensures value { result ≡ at + length (answer_words (Ok answer)) }
    ensures upper_bound { result ≤ at + words_room }
{
    match answer {
        Answer::Ready => put(b"ready", out, at),
        Answer::Taken => put(b"taken", out, at),
        Answer::Moved => put(b"moved", out, at),
        Answer::Waits => put(b"waits", out, at),
        Answer::Done(delivered) => put_delivered(delivered, out, at),
        Answer::Poked => put(b"poked", out, at),
        Answer::Word(v) => put_valued(b"word", v, out, at),
    }
}

// A number, and the space after it.
fn put_number(number: u64, out: &mut [u8], at: usize) -> usize
    requires { at + length (decimal number) + 1 ≤ length out.old }
    ensures out_after { out.new ≡ put_in (number_text number) at out.old }
    ensures value { result ≡ at + length (number_text number) }
{
    let to = put_decimal(number, out, at);
    put(b" ", out, to)
}

// A number of one digit, and the space after it.
#[tactic(auto, using(crate::proofs::Placed::one_digit))]
fn short_text(digit: u8) -> [u8; 2]
    requires { digit ≤ 9 }
    ensures { result ≡ number_text digit }
{
    [b'0' + digit, b' ']
}

// The number of a refusal, and the space after it. Nearly every one has one digit, which costs less than a number of
// any length.
#[tactic(auto, using(crate::proofs::Placed::value_few, crate::proofs::Placed::number_few))]
fn put_refusal(number: u32, out: &mut [u8], at: usize) -> usize
    requires { at + 11 ≤ length out.old }
    ensures out_after { out.new ≡ put_in (number_text number) at out.old }
    ensures value { result ≡ at + length (number_text number) }
    ensures upper_bound { result ≤ at + 11 }
{
    if number <= 9 {
        return put(&short_text(number as u8), out, at);
    }
    put_number(u64::from(number), out, at)
}

// The last two digits of a line's number, and the digits before them, which are written anew once in a hundred lines.
// A number below 100, or of more than ten digits, has none of these, and is written whole each time. The digits
// are an array and how many of it count, since there is no heap here, and eight bytes are copied at once.
#[derive(Clone, Copy)]
pub struct LineNumber {
    pub last: u8,
    pub digits: [u8; 8],
    pub places: usize,
}

#[tactic(auto, unfolding(crate::specs::Texts::line_number), using(crate::proofs::Numbered::before_few))]
pub fn line_number(number: u64) -> Option<LineNumber>
    ensures { result ≡ line_number number }
{
    let before = number / 100;
    let can_stand = (0 < before) & (before < 100000000);
    if !can_stand {
        return None;
    }
    let mut digits = [0u8; 8];
    let places = put_decimal(before, &mut digits, 0);
    Some(LineNumber {
        last: (number % 100) as u8,
        digits,
        places,
    })
}

// The number after that of a line.
#[tactic(auto, unfolding(crate::specs::Texts::counted_on))]
pub fn counted_on(line: Option<LineNumber>, number: u64) -> Option<LineNumber>
    ensures { result ≡ counted_on line number }
{
    match line {
        Some(line) if line.last < 99 => Some(LineNumber {
            last: line.last + 1,
            ..line
        }),
        _ => line_number(number),
    }
}

fn two_digits(n: u8) -> [u8; 2]
    ensures { result ≡ two_digits n }
{
    [b'0' + n / 10, b'0' + n % 10]
}

// The digits of a line's number. All eight bytes go in, since a length that is known costs less than
// one that is not: what follows covers those that are no digits. `places` is tested beside the Option, since the fields
// are public and any value may come: `digits_of` says the same.
fn put_line_number(number: u64, line: Option<LineNumber>, out: &mut [u8], at: usize) -> usize
    requires { at + 20 ≤ length out.old }
    ensures put_before { PutBefore (digits_of number line) at out.old out.new }
    ensures value { result ≡ at + length (digits_of number line) }
    ensures upper_bound { result ≤ at + 20 }
{
    match line {
        Some(line) if (0 < line.places) & (line.places <= 8) => {
            put(&line.digits, out, at);
            put(&two_digits(line.last), out, at + line.places)
        }
        _ => put_decimal(number, out, at),
    }
}

// What follows the line's number of a refusal.
fn put_refused(refusal: u32, out: &mut [u8], at: usize) -> usize
    requires { at + rest_room ≤ length out.old }
    ensures out_after { out.new ≡ put_in (rest_refused refusal) at out.old }
    ensures value { result ≡ at + length (rest_refused refusal) }
    ensures upper_bound { result ≤ at + rest_room }
{
    let first = put(b" ", out, at);
    let second = put_refusal(refusal, out, first);
    put(b"refused\n", out, second)
}

// What follows the line's number of an answer that is no refusal: its own number is 0.
fn put_answered(answer: Answer, out: &mut [u8], at: usize) -> usize
    requires { at + rest_room ≤ length out.old }
    ensures out_after { out.new ≡ put_in (rest_of (Ok answer)) at out.old }
    ensures value { result ≡ at + length (rest_of (Ok answer)) }
    ensures upper_bound { result ≤ at + rest_room }
{
    let first = put(b" 0 ", out, at);
    let second = put_words(answer, out, first);
    put(b"\n", out, second)
}

// Room for the longest line.
const LINE_ROOM: usize = 48;

fn has_room(lent: usize, at: usize) -> bool
    ensures { result ≡ leb (at + line_room) lent }
{
    match lent.checked_sub(LINE_ROOM) {
        None => false,
        Some(last) => at <= last,
    }
}

// Writes a refusal's line in at a place of the lent bytes, where there is room for the longest, and answers where it
// ends. It is public, since a caller may have refusals of its own, with numbers that the rules don't give.
#[tactic(auto, unfolding(crate::specs::Texts::refused_text, crate::specs::Texts::rest_refused))]
pub fn refused_line(
    number: u64,
    line: Option<LineNumber>,
    refusal: u32,
    out: &mut [u8],
    at: usize,
) -> usize
    ensures text { out.new ≡ refused_put (digits_of number line) refusal out.old at }
    ensures end { result ≡ refused_end (digits_of number line) refusal (length out.old) at }
    ensures fits { result ≤ at + line_room }
{
    if !has_room(out.len(), at) {
        return at;
    }
    let to = put_line_number(number, line, out, at);
    put_refused(refusal, out, to)
}

// The same of any answer: a refusal's line is that of its number.
#[tactic(auto, unfolding(crate::specs::Texts::line_text, crate::specs::Texts::rest_of, crate::specs::Texts::answer_words, crate::specs::Texts::refused_text, crate::specs::Texts::rest_refused))]
pub fn answer_line(
    number: u64,
    line: Option<LineNumber>,
    answer: Result<Answer, Refusal>,
    out: &mut [u8],
    at: usize,
) -> usize
    ensures text { out.new ≡ line_put (digits_of number line) answer out.old at }
    ensures end { result ≡ line_end (digits_of number line) answer (length out.old) at }
    ensures fits { result ≤ at + line_room }
{
    let Ok(done) = answer else {
        return refused_line(number, line, number_of(&answer), out, at);
    };
    if !has_room(out.len(), at) {
        return at;
    }
    let to = put_line_number(number, line, out, at);
    put_answered(done, out, to)
}
