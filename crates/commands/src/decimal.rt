// Decimal numbers without needless zeros, read and written.
ghost use Rattle.std.specs.Prelude.{◌≡◌, ◌+◌, ◌<◌, ◌≤◌, true, false, option_map, length, take, slice_index};
ghost use Rattle.commands.specs.Bytes.{put_in};
ghost use Rattle.commands.specs.Decimal.{is_digit, all_digits, value_from, number_said, number_ahead, number_found, decimal};

use crate::bytes::after_text;

// The number that the digits at the number_found of some bytes make, and how many they are. Eleven are looked at: no number
// that is read has more than ten.
fn digits_ahead(bytes: &[u8]) -> (u64, usize)
    ensures value { result.0 ≡ value_from 0 (take result.1 bytes.now) }
    ensures digits { all_digits (take result.1 bytes.now) ≡ true }
    ensures within { result.1 ≤ length bytes.now }
    ensures few { result.1 ≤ 11 }
    ensures stops { result.1 < 11 → result.1 < length bytes.now → is_digit (slice_index bytes.now result.1) ≡ false }
{
    let few = &bytes[..bytes.len().min(11)];
    let mut value = 0u64;
    for (count, b) in few.iter().enumerate() {
        if !b.is_ascii_digit() {
            return (value, count);
        }
        value = value * 10 + u64::from(*b - b'0');
    }
    (value, few.len())
}

// The number that some digits say, if they say one. No `parse`: it takes a `+` and needless zeros, which the rules'
// numbers don't have, and wants the bytes as a `str` first.
#[tactic(auto, using(crate::proofs::Digits::nothing, crate::proofs::Digits::needless, crate::proofs::Digits::large, crate::proofs::Digits::small))]
fn number_said(digits: &[u8], value: u64) -> Option<u32>
    requires all { all_digits digits.now ≡ true }
    requires value { value ≡ value_from 0 digits.now }
    ensures { result ≡ number_said digits.now }
{
    let [first, ..] = digits else {
        return None;
    };
    let needless = (1 < digits.len()) & (*first == b'0');
    if needless {
        return None;
    }
    u32::try_from(value).ok()
}

// A number at the number_found of some bytes, and what follows the space after it, if one follows.
pub(crate) fn number_ahead(bytes: &[u8]) -> Option<(u32, Option<&[u8]>)>
    ensures { option_map number_found result ≡ number_ahead bytes.now }
{
    let (value, count) = digits_ahead(bytes);
    let number = number_said(&bytes[..count], value)?;
    let others = &bytes[count..];
    if others.is_empty() {
        return Some((number, None));
    }
    Some((number, Some(after_text(b" ", others)?)))
}

// How many digits a number has: `put_decimal` must know it, to begin at the last.
#[tactic(auto, using(crate::proofs::Written::digits_by_tens, crate::proofs::Written::one_in_all))]
fn count_digits(n: u64) -> usize
    ensures value { result ≡ length (decimal n) }
    ensures upper_bound { result ≤ 20 }
{
    match n.checked_ilog10() {
        None => 1,
        Some(tens) => 1 + tens as usize,
    }
}

// Writes a number's digits in at a place, the last first, and answers where they end. No `Display`: they go straight
// to their place in the lent bytes, as `put_in` says, with no formatter and its writer between.
pub(crate) fn put_decimal(number: u64, out: &mut [u8], at: usize) -> usize
    requires { at + length (decimal number) ≤ length out.old }
    ensures out_after { out.new ≡ put_in (decimal number) at out.old }
    ensures value { result ≡ at + length (decimal number) }
{
    let end = at + count_digits(number);
    let mut left = number;
    for to in (at + 1..end).rev() {
        out[to] = b'0' + (left % 10) as u8;
        left /= 10;
    }
    out[at] = b'0' + left as u8;
    end
}
