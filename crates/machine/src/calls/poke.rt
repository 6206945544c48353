// `poke`: a write by the bench, at once.
ghost use Rattle.std.specs.Prelude.{◌≡◌, length};
ghost use Rattle.rules.specs.Refusals.{number_in};
ghost use Rattle.rules.specs.Calls.{poke_outcome, word_refusal, poke_of};
ghost use Rattle.machine.specs.PokeShow.{poke_word_outcome, poke_word_of};

use crate::address::known_word_refusal;
use crate::ranges;
use rules::{Answer, Called, GuestAddress, Machine, Record, Refusal, write_word};

// Of a machine that is known to be in its ranges: the write, and the record that it makes.
#[tactic(auto, unfolding(crate::specs::PokeShow::poke_word_of), using(crate::proofs::PokingShowing::word_reached))]
pub fn poke_word(
    bytes: usize,
    memory: &mut [u8],
    address: GuestAddress,
    value: u32,
) -> Result<Record, Refusal>
    ensures { poke_word_outcome result memory.new ≡ poke_word_of bytes memory.old address value }
{
    known_word_refusal(bytes, memory.len(), address)?;
    write_word(memory, address, value);
    Ok(Record::of_poke(address, value))
}

#[tactic(auto, unfolding(rules::specs::Calls::poke_of, rules::specs::Calls::word_refusal))]
pub fn poke(m: Machine, memory: &mut [u8], address: GuestAddress, value: u32) -> Called
    ensures number { number_in result.answer ≡ number_in (word_refusal m (length memory.old) address) }
    ensures outcome { poke_outcome result memory.new ≡ poke_of m memory.old address value }
{
    if !ranges::in_ranges(&m) {
        return Called::refused(Refusal::OutOfRange, m);
    }
    match poke_word(m.bytes, memory, address, value) {
        Ok(record) => Called {
            answer: Ok(Answer::Poked),
            made: Some(record),
            machine: m,
        },
        Err(refusal) => Called::refused(refusal, m),
    }
}
