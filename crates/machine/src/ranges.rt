// The look at a whole state: whether it is in its ranges.
ghost use Rattle.std.specs.Prelude.{◌≡◌, ◌/◌, ◌<◌, ◌≤◌};
ghost use Rattle.rules.specs.Ranges.{sizes_fit, in_ranges};
ghost use Rattle.machine.specs.Looked.{stage_of, can_be_at, spare, spare_are0, word_at, rooms_of, room_in, core_looks_right, fits_at};

use crate::sizes::{bytes_fit, cores_fit, entries_fit};
use rules::{Core, Machine};

fn sizes_fit(m: &Machine) -> bool
    ensures { result ≡ sizes_fit m.now }
{
    cores_fit(m.count) && bytes_fit(m.bytes) && entries_fit(m.entries)
}

// A stage is an operation and a next step. What a core's flags and fields are there, a bit for each: it is busy,
const BUSY: u8 = 1;
// its value is in use (RULES 4.25),
const VALUE: u8 = 2;
// what it read is in use (RULES 4.26),
const READ: u8 = 4;
// its step 2 has not passed (RULES 4.27),
const UNPASSED: u8 = 8;
// and no core is there.
const N: u8 = 16;

// A busy core that has no value, one that has what it read, one with a value, and one whose step 2 may have passed.
const B: u8 = BUSY | UNPASSED;

const R: u8 = BUSY | UNPASSED | READ;

const V: u8 = BUSY | UNPASSED | VALUE;

const P: u8 = BUSY | VALUE;

// Each shape's stages, by next steps from 0 to 15.
const IDLE: [u8; 16] = [UNPASSED, N, N, N, N, N, N, N, N, N, N, N, N, N, N, N];

const LOAD: [u8; 16] = [N, B, N, N, N, N, N, N, N, N, N, N, N, N, N, N];

const LL: [u8; 16] = [N, B, B, B, R, N, N, N, N, N, N, N, N, N, N, N];

const STORE: [u8; 16] = [N, V, V, V, V, N, N, N, N, N, N, N, N, N, N, N];

const SC: [u8; 16] = [N, V, V, P, P, N, N, N, N, N, N, N, N, N, N, N];

const NONE: [u8; 16] = [N; 16];

// The stages of each operation, by its number from 0 to 15: those of its shape (`stage_found` in proofs/Looking.antt).
static STAGES: [[u8; 16]; 16] = [
    IDLE, LOAD, LL, STORE, SC, NONE, NONE, NONE, NONE, NONE, NONE, NONE, NONE, NONE, NONE, NONE,
];

fn stage_of(operation: u8, next: u8) -> u8
    requires few_operations { operation < 16 }
    requires few_steps { next < 16 }
    ensures { result ≡ stage_of operation next }
{
    STAGES[operation as usize][next as usize]
}

// One test of a core's two flags at once: it is busy as the stage is, and passed only where the stage has no `UNPASSED`,
// which is bit 3.
#[tactic(auto, unfolding(crate::specs::Looked::can_be_at))]
fn can_be_at(stage: u8, busy: bool, passed: bool) -> bool
    ensures { result ≡ can_be_at stage busy passed }
{
    (stage ^ u8::from(busy)) & (N | BUSY | (u8::from(passed) << 3)) == 0
}

// What must be 0: a field that is not in use. It is a function, and its callers ask both by one `|`, since each field
// is then chosen and not branched on.
fn spare(used: bool, field: u32) -> u32
    ensures { result ≡ spare used field }
{
    if used { 0 } else { field }
}

#[tactic(auto, unfolding(crate::specs::Looked::spare_are0))]
fn spare_are_0(c: Core, stage: u8) -> bool
    ensures { result ≡ spare_are0 c stage }
{
    (spare(stage & VALUE != 0, c.value) == 0) & (spare(stage & READ != 0, c.read) == 0)
}

// The address with its two lowest bits moved to the top: one comparison then tells that it is aligned and inside.
#[tactic(auto, using(crate::proofs::Looking::rotated))]
fn word_at(address: u32) -> u32
    ensures { result ≡ word_at address }
{
    address.rotate_right(2)
}

// The words that an address can be at, where it is not in use (it is 0) and where it is.
fn rooms_of(words: u32) -> [u32; 2]
    ensures { result ≡ rooms_of words }
{
    [1, words]
}

// An index, and no `if`: so the processor has one instruction for it.
fn room_in(rooms: &[u32; 2], used: bool) -> u32
    ensures { result ≡ room_in rooms.now used }
{
    rooms[usize::from(used)]
}

#[tactic(auto, unfolding(crate::specs::Looked::core_looks_right, crate::specs::Looked::looks_right_at), using(crate::proofs::Looking::small_operation, crate::proofs::Looking::small_next))]
fn core_looks_right(rooms: &[u32; 2], c: Core) -> bool
    ensures { result ≡ core_looks_right rooms.now c }
{
    if 15 < (c.operation | c.next) {
        return false;
    }
    let stage = stage_of(c.operation, c.next);
    can_be_at(stage, c.busy, c.passed)
        && spare_are_0(c, stage)
        && word_at(c.address.0) < room_in(rooms, c.busy)
        && word_at(c.link.0) < room_in(rooms, c.linked)
}

fn words_in(bytes: usize) -> u32
    requires { bytes ≤ 65536 }
    ensures { result ≡ bytes / 4 }
{
    (bytes / 4) as u32
}

// A core below the count, and one at or above it, which is neither busy nor linked. They are two, and each has a loop of
// its own, so that the cores that count are not asked for their place.
#[tactic(auto, unfolding(crate::specs::Looked::fits_at), using(crate::proofs::Looking::in_place))]
fn counted_fits(m: &Machine, rooms: &[u32; 2], i: usize) -> bool
    requires one_of_eight { i < 8 }
    requires counted { i < m.now.count }
    requires own_words { rooms.now ≡ rooms_of (m.now.bytes / 4) }
    ensures { result ≡ fits_at m.now i }
{
    core_looks_right(rooms, m.cores[i])
}

#[tactic(auto, unfolding(crate::specs::Looked::fits_at), using(crate::proofs::Looking::out_of_place))]
fn spare_fits(m: &Machine, rooms: &[u32; 2], i: usize) -> bool
    requires one_of_eight { i < 8 }
    requires not_counted { m.now.count ≤ i }
    requires own_words { rooms.now ≡ rooms_of (m.now.bytes / 4) }
    ensures { result ≡ fits_at m.now i }
{
    let c = m.cores[i];
    !(c.busy | c.linked) && core_looks_right(rooms, c)
}

// Whether the state is in its ranges, looked at where it stands, core by core. It returns at the first test
// that fails: with one test of all cores the compiler would gather fields of several cores, which costs
// more than the tests (docs/PERFORMANCE.md).
#[tactic(auto, using(crate::proofs::Looking::no_sizes, crate::proofs::Looking::few_bytes, crate::proofs::Looking::few_cores, crate::proofs::Looking::a_core_out, crate::proofs::Looking::all_looked))]
pub(crate) fn in_ranges(m: &Machine) -> bool
    ensures { result ≡ in_ranges m.now }
{
    if !sizes_fit(m) {
        return false;
    }
    let rooms = rooms_of(words_in(m.bytes));
    for i in 0..m.count {
        if !counted_fits(m, &rooms, i) {
            return false;
        }
    }
    for i in m.count..8 {
        if !spare_fits(m, &rooms, i) {
            return false;
        }
    }
    true
}
