// `start`: a fresh machine.
ghost use Rattle.std.specs.Prelude.{◌≡◌, length};
ghost use Rattle.rules.specs.Refusals.{number_in};
ghost use Rattle.rules.specs.Calls.{outcome, start_refusal, start_of};

use crate::sizes;
use rules::{Answer, Called, Machine, Refusal};

#[tactic(auto, unfolding(rules::specs::Calls::start_refusal))]
fn start_refusal(count: usize, memory: usize, owners: usize, holders: usize) -> Result<(), Refusal>
    ensures { result ≡ start_refusal count memory owners holders }
{
    if !sizes::bytes_fit(memory) || !sizes::tables_fit(owners, holders) {
        return Err(Refusal::LentLengths);
    }
    if !sizes::cores_fit(count) {
        return Err(Refusal::NoSuchCore);
    }
    Ok(())
}

// A fresh machine, of the sizes that the lent buffers have. Memory, owners and holders stay three parameters: a clause
// on a struct of three `&mut` says `lent.exit.1.1.0.now` where this one says `holders.new`.
#[tactic(auto, unfolding(rules::specs::Calls::start_of))]
pub fn start(count: usize, memory: &mut [u8], owners: &mut [u8], holders: &mut [u8]) -> Called
    ensures number { number_in result.answer ≡ number_in (start_refusal count (length memory.old) (length owners.old) (length holders.old)) }
    ensures outcome { outcome result memory.new owners.new holders.new ≡ start_of count memory.old owners.old holders.old }
{
    let bytes = memory.len();
    let entries = owners.len();
    if let Err(refusal) = start_refusal(count, bytes, entries, holders.len()) {
        return Called::refused(refusal, Machine::all_idle(0, 0, 0));
    }
    memory.fill(0);
    owners.fill(0);
    holders.fill(0);
    Called::answered(Answer::Ready, Machine::all_idle(count, bytes, entries))
}
