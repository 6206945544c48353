// What crosses to C: an answer as one number (RULES 13.4), a record as its 16 bytes (RULES 13.7).
ghost use Rattle.std.specs.Prelude.{◌≡◌, ◌≤◌, ◌%◌, ℕ};
ghost use Rattle.rules.specs.Refusals.{refusal_number};
ghost use Rattle.bench.specs.Packed.{
  word_and_value,
  packed_by,
  packed_delivered,
  packed_answer,
  packed_put,
  packed_good,
  packed_found,
  packed_count,
  packed_decided,
  handed_bytes,
  found_bytes,
};

use archive::{Numbered, Put, encode_record};
use machine::{Answer, Delivered, Record, Refusal};

// A length or an index, in 32 bits. By hand: a From or TryFrom does not cut a number short, so none is plainer.
fn low(x: usize) -> u32
    ensures { result ≡ x % 4294967296 }
{
    (x % 4294967296) as u32
}

// The word says which answer it is, and the value stands beside it. The words are numbers for the C interface,
// bench/malthobre.h.
fn word_and_value(word: u8, value: u32) -> u64
    ensures { result ≡ word_and_value word value }
{
    256 * u64::from(word) + 4294967296 * u64::from(value)
}

// What a call answers or refuses with, as one number.
pub(crate) trait Packed {
    ghost packs: { Self → ℕ };

    fn packed(self) -> u64
        ensures { result ≡ packs self };
}

impl<T: Packed, E: Packed> Packed for Result<T, E> {
    ghost packs = { packed_by T.packs E.packs };

    fn packed(self) -> u64 {
        match self {
            Ok(answer) => answer.packed(),
            Err(refusal) => refusal.packed(),
        }
    }
}

impl Packed for Refusal {
    ghost packs = { refusal_number };

    fn packed(self) -> u64 {
        u64::from(self.number())
    }
}

// What a finished operation answers.
impl Packed for Delivered {
    ghost packs = { packed_delivered };

    fn packed(self) -> u64 {
        match self {
            Delivered::Load(v) => word_and_value(5, v),
            Delivered::Ll(v) => word_and_value(6, v),
            Delivered::Store => word_and_value(7, 0),
            Delivered::Sc(v) => word_and_value(8, v),
        }
    }
}

impl Packed for Answer {
    ghost packs = { packed_answer };

    fn packed(self) -> u64 {
        match self {
            Answer::Ready => word_and_value(1, 0),
            Answer::Taken => word_and_value(2, 0),
            Answer::Moved => word_and_value(3, 0),
            Answer::Waits => word_and_value(4, 0),
            Answer::Done(delivered) => delivered.packed(),
            Answer::Poked => word_and_value(9, 0),
            Answer::Word(v) => word_and_value(10, v),
        }
    }
}

impl Packed for Put {
    ghost packs = { packed_put };

    fn packed(self) -> u64 {
        match self {
            Put::Nothing => word_and_value(11, 0),
            Put::Block => word_and_value(12, 0),
        }
    }
}

// A block is good.
impl Packed for () {
    ghost packs = { packed_good };

    fn packed(self) -> u64 {
        word_and_value(13, 0)
    }
}

// A record that is found goes out by its bytes.
impl Packed for Option<Numbered> {
    ghost packs = { packed_found };

    fn packed(self) -> u64 {
        match self {
            None => word_and_value(14, 0),
            Some(_) => word_and_value(15, 0),
        }
    }
}

// How many records an archive holds.
impl Packed for usize {
    ghost packs = { packed_count };

    fn packed(self) -> u64 {
        word_and_value(16, low(self))
    }
}

// The index of the block that decided, if one did.
impl Packed for Option<usize> {
    ghost packs = { packed_decided };

    fn packed(self) -> u64 {
        match self {
            None => word_and_value(17, 0),
            Some(index) => word_and_value(18, low(index)),
        }
    }
}

pub(crate) fn handed_bytes(made: Option<Record>) -> [u8; 16]
    ensures { result ≡ handed_bytes made }
{
    match made {
        None => [0; 16],
        Some(r) => encode_record(0, r),
    }
}

pub(crate) fn found_bytes(found: Option<Numbered>) -> [u8; 16]
    ensures { result ≡ found_bytes found }
{
    match found {
        None => [0; 16],
        Some(found) => encode_record(found.number, found.record),
    }
}
