// `give`: an operation for an idle core.
ghost use Rattle.std.specs.Prelude.{◌≡◌};
ghost use Rattle.rules.specs.Refusals.{number_in};
ghost use Rattle.rules.specs.Calls.{give_refusal, give_of};
ghost use Rattle.machine.specs.Give.{known_give_refusal, give_core_of, given_at};

use crate::address::address_refusal;
use crate::ranges;
use crate::sizes::Sizes;
use rules::{Answer, Called, Core, Machine, Operation, Refusal};

#[tactic(auto, unfolding(crate::specs::Give::known_give_refusal))]
fn known_give_refusal(
    sizes: Sizes,
    c: Core,
    core: usize,
    operation: Operation,
) -> Result<(), Refusal>
    ensures { result ≡ known_give_refusal sizes c core operation }
{
    if sizes.count <= core {
        return Err(Refusal::NoSuchCore);
    }
    if c.busy {
        return Err(Refusal::Busy);
    }
    address_refusal(sizes.bytes, operation.address())
}

// Of a machine that is known to be in its ranges: an operation for the core c, which the caller then puts in its place.
#[tactic(auto, unfolding(crate::specs::Give::give_core_of))]
pub fn give_core(sizes: Sizes, c: Core, core: usize, operation: Operation) -> Result<Core, Refusal>
    ensures { result ≡ give_core_of sizes c core operation }
{
    known_give_refusal(sizes, c, core, operation)?;
    Ok(c.given(operation))
}

// On the machine where it stands: it is left as `give` hands it back.
#[tactic(auto, unfolding(rules::specs::Calls::give_of, rules::specs::Calls::give_refusal))]
pub fn give_in_place(
    machine: &mut Machine,
    core: usize,
    operation: Operation,
) -> Result<Answer, Refusal>
    ensures number { number_in result ≡ number_in (give_refusal machine.old core operation) }
    ensures outcome { given_at result machine.new ≡ give_of machine.old core operation }
{
    if !ranges::in_ranges(machine) {
        return Err(Refusal::OutOfRange);
    }
    let at = core % 8;
    machine.cores[at] = give_core(Sizes::of(machine), machine.cores[at], core, operation)?;
    Ok(Answer::Taken)
}

// Of a machine by value: it is given in a local.
pub fn give(m: Machine, core: usize, operation: Operation) -> Called
    ensures number { number_in result.answer ≡ number_in (give_refusal m core operation) }
    ensures outcome { result ≡ give_of m core operation }
{
    let mut machine = m;
    let answer = give_in_place(&mut machine, core, operation);
    Called {
        answer,
        made: None,
        machine,
    }
}
