// An address that a give, a poke or a show may not name, and the word at it.
ghost use Rattle.std.specs.Prelude.{◌≡◌};
ghost use Rattle.rules.specs.Calls.{address_refusal};
ghost use Rattle.machine.specs.PokeShow.{known_word_refusal};

use rules::{GuestAddress, Refusal};

pub(crate) fn address_refusal(bytes: usize, a: GuestAddress) -> Result<(), Refusal>
    ensures { result ≡ address_refusal bytes a }
{
    let place = a.place();
    if place % 4 != 0 {
        return Err(Refusal::Unaligned);
    }
    if bytes <= place {
        return Err(Refusal::Outside);
    }
    Ok(())
}

// A poke's and a show's. The machine's bytes are not the lent slice's length: that the two agree is the rules' first
// test here.
#[tactic(auto, unfolding(crate::specs::PokeShow::known_word_refusal))]
pub(crate) fn known_word_refusal(
    bytes: usize,
    memory: usize,
    address: GuestAddress,
) -> Result<(), Refusal>
    ensures { result ≡ known_word_refusal bytes memory address }
{
    if memory != bytes {
        return Err(Refusal::LentLengths);
    }
    address_refusal(bytes, address)?;
    if bytes < address.place() + 4 {
        return Err(Refusal::OutOfRange);
    }
    Ok(())
}
