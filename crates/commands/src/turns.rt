// A command on a machine that is known to be in its ranges and stays with the caller: the one core that it may
// change goes in, and comes back as it leaves it.
ghost use Rattle.std.specs.Prelude.{◌≡◌};
ghost use Rattle.commands.specs.Turns.{
  one_core,
  turn_outcome,
  give_turn,
  step_turn,
  poke_turn,
  show_turn,
  act_on,
  line_in_place,
  run_in_place,
  Sound,
};
ghost use Rattle.commands.specs.Effect.{line_outcome, running, run_command};
ghost use Rattle.commands.specs.Promises.{KeptIfRefused};

use crate::effect::{Session, set_up};
use crate::grammar::Command;
use machine::{Answer, Core, GuestAddress, Machine, Operation, Record, Refusal, Sizes, Stepped};

// What a command answers that is not refused, the record that it makes, if it makes one, and what becomes of the core.
#[derive(Clone, Copy)]
pub struct Did {
    pub answer: Answer,
    pub made: Option<Record>,
    pub core: Core,
}

// The one core that a command may change, where it leaves the machine as it is but for that: a give and a step change
// their own; a poke and a show change none, and any core will do.
pub fn one_core_of(command: Option<Command>) -> Option<usize>
    ensures { result ≡ one_core command }
{
    match command? {
        Command::New { .. } => None,
        Command::Give(core, _) | Command::Step(core) => Some(core as usize),
        Command::Poke(_, _) | Command::Show(_) => Some(0),
    }
}

// `give CORE ..`
fn give_turn(sizes: Sizes, c: Core, core: u32, operation: Operation) -> Result<Did, Refusal>
    ensures { result ≡ give_turn sizes c core operation }
{
    let core = machine::give_core(sizes, c, core as usize, operation)?;
    Ok(Did {
        answer: Answer::Taken,
        made: None,
        core,
    })
}

// `step CORE`. Memory, owners and holders stay three parameters here and below: of a struct of three borrows a clause
// would read `lent.exit.1.1.0.now` where it says `holders.new` (tried in machine).
fn step_turn(
    sizes: Sizes,
    c: Core,
    memory: &mut [u8],
    owners: &mut [u8],
    holders: &mut [u8],
    core: u32,
) -> Result<Did, Refusal>
    ensures { turn_outcome result memory.new owners.new holders.new ≡ step_turn sizes c memory.old owners.old holders.old core }
{
    let b = sizes.bytes.min(memory.len());
    let o = sizes.entries.min(owners.len());
    let h = sizes.entries.min(holders.len());
    let step = machine::step_core(
        sizes,
        c,
        &mut memory[..b],
        &mut owners[..o],
        &mut holders[..h],
        core as usize,
    )?;
    Ok(Did {
        answer: step.answer,
        made: step.made,
        core: step.core,
    })
}

// `poke ADDRESS VALUE`
fn poke_turn(
    bytes: usize,
    c: Core,
    memory: &mut [u8],
    address: GuestAddress,
    value: u32,
) -> Result<Did, Refusal>
    ensures value { result ≡ (poke_turn bytes c memory.old address value).did }
    ensures memory_after { memory.new ≡ (poke_turn bytes c memory.old address value).memory }
{
    let b = bytes.min(memory.len());
    let made = machine::poke_word(bytes, &mut memory[..b], address, value)?;
    Ok(Did {
        answer: Answer::Poked,
        made: Some(made),
        core: c,
    })
}

// `show ADDRESS`
fn show_turn(bytes: usize, c: Core, memory: &[u8], address: GuestAddress) -> Result<Did, Refusal>
    ensures { result ≡ show_turn bytes c memory.now address }
{
    let b = bytes.min(memory.len());
    let word = machine::show_word(bytes, &memory[..b], address)?;
    Ok(Did {
        answer: Answer::Word(word),
        made: None,
        core: c,
    })
}

// What a command does that leaves the machine as it is but for the core c. Memory and the two tables are lent
// whole; the machine uses their first bytes. A command that makes a machine, and a line that is no command, are done
// elsewhere.
#[tactic(auto, unfolding(crate::specs::Turns::act_on))]
pub fn act(
    sizes: Sizes,
    c: Core,
    memory: &mut [u8],
    owners: &mut [u8],
    holders: &mut [u8],
    command: Option<Command>,
) -> Result<Did, Refusal>
    ensures { turn_outcome result memory.new owners.new holders.new ≡ act_on sizes c memory.old owners.old holders.old command }
{
    match command {
        None | Some(Command::New { .. }) => Err(Refusal::NotUnderstood),
        Some(Command::Give(core, operation)) => give_turn(sizes, c, core, operation),
        Some(Command::Step(core)) => step_turn(sizes, c, memory, owners, holders, core),
        Some(Command::Poke(address, value)) => poke_turn(sizes.bytes, c, memory, address, value),
        Some(Command::Show(address)) => show_turn(sizes.bytes, c, memory, address),
    }
}

// A command on a machine that stands: the one core that it may change is copied out, and put back.
fn turn(
    m: &mut Machine,
    memory: &mut [u8],
    owners: &mut [u8],
    holders: &mut [u8],
    core: usize,
    command: Option<Command>,
) -> Stepped
    ensures { line_outcome result (running m.new) memory.new owners.new holders.new ≡ line_in_place m.old memory.old owners.old holders.old core command }
{
    let at = core % 8;
    match act(Sizes::of(m), m.cores[at], memory, owners, holders, command) {
        Ok(did) => {
            m.cores[at] = did.core;
            Stepped {
                answer: Ok(did.answer),
                made: did.made,
            }
        }
        Err(refusal) => Stepped::refused(refusal),
    }
}

impl Session {
    // What a line's command does, and what it leaves: the machine is not copied, but where a `new` makes one. A machine
    // that stands in its ranges stays so, and nothing looks at it. A line that is refused, by whatever number, leaves all
    // as it was, and makes no record.
    pub fn run(
        &mut self,
        memory: &mut [u8],
        owners: &mut [u8],
        holders: &mut [u8],
        command: Option<Command>,
    ) -> Stepped
        ensures outcome { line_outcome result self.new memory.new owners.new holders.new ≡ run_in_place self.old memory.old owners.old holders.old command }
        ensures as_the_rules { Sound self.old → line_outcome result self.new memory.new owners.new holders.new ≡ run_command self.old memory.old owners.old holders.old command }
        ensures sound { Sound self.old → Sound self.new }
        ensures refused_leaves { KeptIfRefused self.old memory.old owners.old holders.old (line_outcome result self.new memory.new owners.new holders.new) }
    {
        match (one_core_of(command), &mut self.machine) {
            (Some(core), Some(m)) => turn(m, memory, owners, holders, core, command),
            _ => set_up(self, memory, owners, holders, command),
        }
    }
}
