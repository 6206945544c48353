// `step`: one micro-step of one core. Memory, owners and holders stay three parameters in each form: a clause on a
// struct of three `&mut` says `lent.exit.1.1.0.now` where these say `holders.new`.
ghost use Rattle.std.specs.Prelude.{◌≡◌, ◌<◌, length};
ghost use Rattle.rules.specs.Refusals.{number_in};
ghost use Rattle.rules.specs.Ranges.{damaged};
ghost use Rattle.rules.specs.Calls.{outcome, step_refusal, step_of};
ghost use Rattle.machine.specs.Step.{entry_for, known_step_refusal, step_core_outcome, step_core_of, called_at, refused_step};

use crate::ranges;
use crate::sizes::Sizes;
use rules::{
    Answer, Called, Core, EntryNumber, Machine, MicroStep, Record, Refusal, Shape, entry_of,
    read_word, write_word,
};

// What a step hands back that leaves the machine with its caller.
#[derive(Clone, Copy, PartialEq, Eq, Debug)]
pub struct Stepped {
    pub answer: Result<Answer, Refusal>,
    pub made: Option<Record>,
}

impl Stepped {
    // A refusal makes no record.
    pub fn refused(refusal: Refusal) -> Stepped
        ensures { result ≡ refused_step refusal }
    {
        Stepped {
            answer: Err(refusal),
            made: None,
        }
    }
}

// The damage of the table at the entry used.
#[tactic(auto, unfolding(rules::specs::Ranges::damaged))]
fn damaged(count: usize, me: u8, c: Core, owner: u8, holder: u8) -> bool
    requires { me < 8 }
    ensures { result ≡ damaged count me c owner holder }
{
    let mark = me + 1;
    let owner_beyond = count < usize::from(owner);
    let holder_beyond = count < usize::from(holder);
    let lost = 2 <= c.next && holder != mark;
    let early = c.next == 1 && holder == mark;
    Shape::of(c.operation) != Some(Shape::Load) && (owner_beyond || holder_beyond || lost || early)
}

// The entry is found once, for these tests and for the step.
#[tactic(auto, unfolding(crate::specs::Step::known_step_refusal))]
fn known_step_refusal(
    sizes: Sizes,
    c: Core,
    e: EntryNumber,
    memory: usize,
    owners: &[u8],
    holders: &[u8],
    core: usize,
) -> Result<(), Refusal>
    requires { e ≡ entry_for sizes c }
    ensures { result ≡ known_step_refusal sizes c memory owners.now holders.now core }
{
    let entries = sizes.entries;
    if memory != sizes.bytes || owners.len() != entries || holders.len() != entries {
        return Err(Refusal::LentLengths);
    }
    if sizes.count <= core {
        return Err(Refusal::NoSuchCore);
    }
    if !c.busy {
        return Err(Refusal::Idle);
    }
    if 8 <= core || entries <= e.0 || sizes.bytes < c.address.place() + 4 {
        return Err(Refusal::OutOfRange);
    }
    if damaged(sizes.count, core as u8, c, owners[e.0], holders[e.0]) {
        return Err(Refusal::Damaged);
    }
    Ok(())
}

// Of a machine that is known to be in its ranges: one micro-step of the core c, which the caller then puts in its place.
#[tactic(auto, unfolding(crate::specs::Step::step_core_of), using(crate::proofs::Stepping::step_reach, crate::proofs::Stepping::own_step))]
pub fn step_core(
    sizes: Sizes,
    c: Core,
    memory: &mut [u8],
    owners: &mut [u8],
    holders: &mut [u8],
    core: usize,
) -> Result<MicroStep, Refusal>
    ensures { step_core_outcome result memory.new owners.new holders.new ≡ step_core_of sizes c memory.old owners.old holders.old core }
{
    let e = entry_of(sizes.entries, c.address);
    known_step_refusal(sizes, c, e, memory.len(), owners, holders, core)?;
    let word = read_word(memory, c.address);
    let did = c.micro_step(core, owners[e.0], holders[e.0], word);
    owners[e.0] = did.owner;
    holders[e.0] = did.holder;
    if did.writes {
        write_word(memory, c.address, c.value);
    }
    Ok(did)
}

// Of a machine by value: one core is taken out of its place, and what became of it is put there, in the parameter itself.
#[tactic(auto, unfolding(rules::specs::Calls::step_of, rules::specs::Calls::step_refusal))]
pub fn step(
    mut m: Machine,
    memory: &mut [u8],
    owners: &mut [u8],
    holders: &mut [u8],
    core: usize,
) -> Called
    ensures number { number_in result.answer ≡ number_in (step_refusal m (length memory.old) owners.old holders.old core) }
    ensures outcome { outcome result memory.new owners.new holders.new ≡ step_of m memory.old owners.old holders.old core }
{
    if !ranges::in_ranges(&m) {
        return Called::refused(Refusal::OutOfRange, m);
    }
    let at = core % 8;
    let sizes = Sizes::of(&m);
    let (answer, made) = match step_core(sizes, m.cores[at], memory, owners, holders, core) {
        Ok(did) => {
            m.cores[at] = did.core;
            (Ok(did.answer), did.made)
        }
        Err(refusal) => (Err(refusal), None),
    };
    Called {
        answer,
        made,
        machine: m,
    }
}

// On the machine where it stands: it goes by value, and what came back is stored.
pub fn step_in_place(
    machine: &mut Machine,
    memory: &mut [u8],
    owners: &mut [u8],
    holders: &mut [u8],
    core: usize,
) -> Stepped
    ensures number { number_in result.answer ≡ number_in (step_refusal machine.old (length memory.old) owners.old holders.old core) }
    ensures outcome { outcome (called_at result machine.new) memory.new owners.new holders.new ≡ step_of machine.old memory.old owners.old holders.old core }
{
    let called = step(*machine, memory, owners, holders, core);
    *machine = called.machine;
    Stepped {
        answer: called.answer,
        made: called.made,
    }
}
