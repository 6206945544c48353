// What the lines run on.
ghost use Rattle.commands.specs.Turns.{Sound};
ghost use Rattle.std.proofs.Props.{props};

use commands::{Command, Session};
use machine::Stepped;

// The machine, the buffers that are lent to it, and how many lines were answered. The session is sound from the
// first line on, so no line looks at its machine.
#[derive(Drop)]
pub struct Work {
    pub session: Session,
    pub memory: [u8; 16384],
    pub owners: [u8; 4096],
    pub holders: [u8; 4096],
    pub answered: u64,
    ghost sound: { Sound session } by { Prim.hlevel props },
}

impl Work {
    ghost use Rattle.std.specs.Prelude.{◌≡◌};
    ghost use Rattle.commands.specs.Effect.{run_command};
    ghost use Rattle.script.specs.Output.{fresh};
    ghost use Rattle.script.specs.Answering.{outcome_in, work_of};

    // No machine yet, and the lent buffers all 0.
    pub(crate) fn fresh() -> Work
        ensures { work_of result ≡ fresh }
    {
        Work {
            session: commands::no_machine(),
            memory: [0; 16384],
            owners: [0; 4096],
            holders: [0; 4096],
            answered: 0,
        }
    }

    // Does a line's command. Nothing looks at the machine, and it is not copied, but where a `new` makes one.
    pub(crate) fn run(&mut self, command: Option<Command>) -> Stepped
        ensures outcome { outcome_in result self.new ≡ run_command self.old.session self.old.memory self.old.owners self.old.holders command }
        ensures answered { self.new.answered ≡ self.old.answered }
    {
        self.session.run(
            &mut self.memory,
            &mut self.owners,
            &mut self.holders,
            command,
        )
    }
}
