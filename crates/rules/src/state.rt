// The machine's state, and what a call hands back.
ghost use Rattle.std.specs.Prelude.{◌≡◌};
ghost use Rattle.rules.specs.Calls.{all_idle, refused, answered};

use crate::answers::{Answer, Record};
use crate::cores::Core;
use crate::refusals::Refusal;

// The sizes are those of the lent buffers: memory's bytes, and the entries of each table. Laid out as
// in C, so that a bench can keep one.
#[repr(C)]
#[derive(Clone, Copy)]
pub struct Machine {
    pub cores: [Core; 8],
    pub count: usize,
    pub bytes: usize,
    pub entries: usize,
}

#[derive(Clone, Copy)]
pub struct Called {
    pub answer: Result<Answer, Refusal>,
    pub made: Option<Record>,
    pub machine: Machine,
}

impl Machine {
    pub fn all_idle(count: usize, bytes: usize, entries: usize) -> Machine
        ensures { result ≡ all_idle count bytes entries }
    {
        Machine {
            cores: [Core::idle(); 8],
            count,
            bytes,
            entries,
        }
    }
}

impl Called {
    pub fn refused(refusal: Refusal, m: Machine) -> Called
        ensures { result ≡ refused refusal m }
    {
        Called {
            answer: Err(refusal),
            made: None,
            machine: m,
        }
    }

    pub fn answered(answer: Answer, m: Machine) -> Called
        ensures { result ≡ answered answer m }
    {
        Called {
            answer: Ok(answer),
            made: None,
            machine: m,
        }
    }
}
