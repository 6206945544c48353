// Numbers in bytes, the lowest byte first. Any bytes and any place: a byte that is not there is read as 0, and is not
// written.
ghost use Rattle.std.specs.Prelude.{◌≡◌, ◌<◌, drop, slice_index, slice_set};
ghost use Rattle.rules.specs.Bytes.{read_bytes, write_bytes, bytes_of};
ghost use Rattle.rules.specs.Word.{read_word, write_word};

use crate::entry::GuestAddress;

// The bytes of a number.
pub fn two_bytes(number: u16) -> [u8; 2]
    ensures { result ≡ bytes_of 2 number }
{
    number.to_le_bytes()
}

pub fn four_bytes(number: u32) -> [u8; 4]
    ensures { result ≡ bytes_of 4 number }
{
    number.to_le_bytes()
}

// The bytes from a place on.
fn from(s: &[u8], at: usize) -> &[u8]
    ensures { result.now ≡ drop at s.now }
{
    s.get(at..).unwrap_or(&[])
}

fn byte_at(s: &[u8], at: usize) -> u8
    ensures { result ≡ slice_index s.now at }
{
    s.get(at).copied().unwrap_or(0)
}

// The number that two bytes make.
#[tactic(auto, using(crate::proofs::Widths::two_read, crate::proofs::Widths::read_dropped))]
pub fn read_two(s: &[u8], at: usize) -> u16
    ensures { result ≡ read_bytes 2 s.now at }
{
    let rest = from(s, at);
    match rest.first_chunk() {
        Some(two) => u16::from_le_bytes(*two),
        None => two_of_fewer(rest),
    }
}

#[cold]
#[tactic(auto, unfolding(crate::specs::Bytes::read_bytes))]
fn two_of_fewer(s: &[u8]) -> u16
    ensures { result ≡ read_bytes 2 s.now 0 }
{
    u16::from_le_bytes([byte_at(s, 0), byte_at(s, 1)])
}

// The number that four bytes make.
#[tactic(auto, using(crate::proofs::Widths::four_read, crate::proofs::Widths::read_dropped))]
pub fn read_four(s: &[u8], at: usize) -> u32
    ensures { result ≡ read_bytes 4 s.now at }
{
    let rest = from(s, at);
    match rest.first_chunk() {
        Some(four) => u32::from_le_bytes(*four),
        None => four_of_fewer(rest),
    }
}

#[cold]
#[tactic(auto, unfolding(crate::specs::Bytes::read_bytes))]
fn four_of_fewer(s: &[u8]) -> u32
    ensures { result ≡ read_bytes 4 s.now 0 }
{
    u32::from_le_bytes([byte_at(s, 0), byte_at(s, 1), byte_at(s, 2), byte_at(s, 3)])
}

// The word at an address. Not by `read_four`: this test a caller has made already, and so it costs nothing there.
#[tactic(auto, unfolding(crate::specs::Word::read_word), using(crate::proofs::Widths::four_read, crate::proofs::Widths::read_dropped))]
pub fn read_word(memory: &[u8], address: GuestAddress) -> u32
    ensures { result ≡ read_word memory.now address }
{
    let at = address.place();
    if at + 4 <= memory.len() {
        u32::from_le_bytes(*memory[at..].first_chunk().unwrap())
    } else {
        four_of_fewer(from(memory, at))
    }
}

fn set_byte(s: &mut [u8], at: usize, byte: u8)
    ensures { s.new ≡ slice_set s.old at byte }
{
    if at < s.len() {
        s[at] = byte;
    }
}

// The word's bytes that are there.
#[cold]
#[tactic(auto, unfolding(crate::specs::Bytes::write_bytes))]
fn write_up_to_four(memory: &mut [u8], at: usize, value: u32)
    requires { at < 4294967296 }
    ensures { memory.new ≡ write_bytes 4 memory.old at value }
{
    let [b0, b1, b2, b3] = four_bytes(value);
    set_byte(memory, at, b0);
    set_byte(memory, at + 1, b1);
    set_byte(memory, at + 2, b2);
    set_byte(memory, at + 3, b3);
}

// Writes the word at an address.
#[tactic(auto, unfolding(crate::specs::Word::write_word), using(crate::proofs::Widths::four_written))]
pub fn write_word(memory: &mut [u8], address: GuestAddress, value: u32)
    ensures { memory.new ≡ write_word memory.old address value }
{
    let at = address.place();
    if at + 4 <= memory.len() {
        memory[at..at + 4].copy_from_slice(&four_bytes(value));
    } else {
        write_up_to_four(memory, at, value);
    }
}
