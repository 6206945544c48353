// A machine's sizes: which can be, and those of a machine for a caller that keeps it and knows it to be in its ranges.
ghost use Rattle.std.specs.Prelude.{◌≡◌, ◌%◌, ◌≤◌};
ghost use Rattle.rules.specs.Sizes.{cores_fit, bytes_fit, entries_fit, tables_fit};
ghost use Rattle.machine.specs.Sizes.{sizes_of};

use rules::Machine;

// How many cores there are, memory's bytes, and the entries of each table.
#[derive(Clone, Copy, PartialEq, Eq, Debug)]
pub struct Sizes {
    pub count: usize,
    pub bytes: usize,
    pub entries: usize,
}

impl Sizes {
    pub fn of(m: &Machine) -> Sizes
        ensures { result ≡ sizes_of m.now }
    {
        Sizes {
            count: m.count,
            bytes: m.bytes,
            entries: m.entries,
        }
    }
}

pub(crate) fn cores_fit(count: usize) -> bool
    ensures { result ≡ cores_fit count }
{
    1 <= count && count <= 8
}

pub(crate) fn bytes_fit(bytes: usize) -> bool
    ensures { result ≡ bytes_fit bytes }
{
    4 <= bytes && bytes <= 65536 && bytes % 4 == 0
}

#[tactic(auto, using(crate::proofs::Entries::few_entries, crate::proofs::Entries::many_entries))]
pub(crate) fn entries_fit(e: usize) -> bool
    ensures { result ≡ entries_fit e }
{
    e <= 4096 && e.is_power_of_two()
}

pub(crate) fn tables_fit(owners: usize, holders: usize) -> bool
    ensures { result ≡ tables_fit owners holders }
{
    entries_fit(owners) && holders == owners
}
