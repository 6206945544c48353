// `show`: the word at an address.
ghost use Rattle.std.specs.Prelude.{◌≡◌, length};
ghost use Rattle.rules.specs.Refusals.{number_in};
ghost use Rattle.rules.specs.Calls.{word_refusal, show_of};
ghost use Rattle.machine.specs.PokeShow.{show_word_of};

use crate::address::known_word_refusal;
use crate::ranges;
use rules::{Answer, Called, GuestAddress, Machine, Refusal, read_word};

// Of a machine that is known to be in its ranges.
#[tactic(auto, unfolding(crate::specs::PokeShow::show_word_of), using(crate::proofs::PokingShowing::word_reached))]
pub fn show_word(bytes: usize, memory: &[u8], address: GuestAddress) -> Result<u32, Refusal>
    ensures { result ≡ show_word_of bytes memory.now address }
{
    known_word_refusal(bytes, memory.len(), address)?;
    Ok(read_word(memory, address))
}

#[tactic(auto, unfolding(rules::specs::Calls::show_of, rules::specs::Calls::word_refusal))]
pub fn show(m: Machine, memory: &[u8], address: GuestAddress) -> Called
    ensures number { number_in result.answer ≡ number_in (word_refusal m (length memory.now) address) }
    ensures outcome { result ≡ show_of m memory.now address }
{
    if !ranges::in_ranges(&m) {
        return Called::refused(Refusal::OutOfRange, m);
    }
    match show_word(m.bytes, memory, address) {
        Ok(word) => Called::answered(Answer::Word(word), m),
        Err(refusal) => Called::refused(refusal, m),
    }
}
