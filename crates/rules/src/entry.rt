// Guest addresses and entry numbers, and the one rule between them (RULES 3.7, 3.8).
ghost use Rattle.std.specs.Prelude.{◌≡◌};
ghost use Rattle.rules.specs.Entry.{entry_of};

// A byte's address in guest memory.
#[repr(C)]
#[derive(Clone, Copy, PartialEq, Eq, Default, Debug)]
pub struct GuestAddress(pub u32);

// The number of an entry of the table.
#[derive(Clone, Copy, PartialEq, Eq, Debug)]
pub struct EntryNumber(pub usize);

impl GuestAddress {
    // The place of the address in the lent bytes.
    pub fn place(self) -> usize
        ensures { result ≡ self.0 }
    {
        self.0 as usize
    }
}

// The entry of an address. Where the entries are a power of two the division is a mask; with no
// entries at all the entry is the word's number.
#[tactic(auto, unfolding(crate::specs::Entry::entry_of), using(crate::proofs::Powers::masked))]
pub fn entry_of(entries: usize, address: GuestAddress) -> EntryNumber
    ensures { result ≡ entry_of entries address }
{
    let word = address.place() / 4;
    let below = entries.wrapping_sub(1);
    if entries & below == 0 {
        return EntryNumber(word & below);
    }
    EntryNumber(word % entries)
}
