// What the machine answers and what it hands out.
ghost use Rattle.std.specs.Prelude.{◌≡◌};
ghost use Rattle.rules.specs.Calls.{poke_record};

use crate::entry::GuestAddress;
use crate::kinds::Kind;

// The answers of every call that is not refused, named as the script program writes them.
#[derive(Clone, Copy, PartialEq, Eq, Debug)]
pub enum Answer {
    Ready,
    Taken,
    Moved,
    Waits,
    Done(Delivered),
    Poked,
    Word(u32),
}

// What a finished operation answers.
#[derive(Clone, Copy, PartialEq, Eq, Debug)]
pub enum Delivered {
    Load(u32),
    Ll(u32),
    Store,
    Sc(u32),
}

// One access, as RULES 7.4 has it: which core made it (255: the bench), its kind, its address, and the value, which
// was read, or written, or in kind 5 would have been. Core and kind are the archive's numbers, and may be any: of
// those that none has, the writer's `add_refusal` says that they are refused.
#[derive(Clone, Copy, PartialEq, Eq, Debug)]
pub struct Record {
    pub core: u8,
    pub kind: u8,
    pub address: GuestAddress,
    pub value: u32,
}

impl Record {
    // The core of a poke's record: the bench.
    pub const BENCH: u8 = 255;

    // The record of a poke.
    pub fn of_poke(address: GuestAddress, value: u32) -> Record
        ensures { result ≡ poke_record address value }
    {
        Record {
            core: Record::BENCH,
            kind: Kind::Poke.number(),
            address,
            value,
        }
    }
}
