// Why a call refuses: RULES 6.1's answer numbers from 1 on, those of the machine's calls, of a script's lines and
// of the archive's calls in one table.
ghost use Rattle.std.specs.Prelude.{◌≡◌};
ghost use Rattle.rules.specs.Refusals.{refusal_number, number_in};

#[derive(Clone, Copy, PartialEq, Eq, Debug)]
pub enum Refusal {
    NoSuchCore = 1,
    Unaligned = 2,
    Outside = 3,
    LentLengths = 4,
    OutOfRange = 5,
    Damaged = 6,
    Busy = 7,
    Idle = 8,
    NotUnderstood = 9,
    NoMachine = 10,
    BlockMark = 11,
    BlockCheck = 12,
    BlockNumber = 13,
    RecordCount = 14,
    RecordField = 15,
    BlockLength = 16,
    Full = 17,
    Closed = 18,
}

impl Refusal {
    // The number that the rules give the refusal.
    pub fn number(self) -> u32
        ensures { result ≡ refusal_number self }
    {
        self as u32
    }
}

// The number that the rules give an answer: its refusal's, and 0 where it is none.
pub fn number_of<T>(answer: &Result<T, Refusal>) -> u32
    ensures { result ≡ number_in answer.now }
{
    match answer {
        Ok(_) => 0,
        Err(refusal) => refusal.number(),
    }
}
