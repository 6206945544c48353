// The calls as bench/malthobre.h declares them; the crate `bench_c` exports them to C. The lent buffers are separate
// parameters, a number is an answer and 16 bytes are a record for the C interface.
ghost use Rattle.std.specs.Prelude.{◌≡◌};
ghost use Rattle.bench.specs.CallOutcome.{call_outcome};
ghost use Rattle.bench.specs.Machines.{start_call_outcome, step_call_outcome, poke_call_outcome, start_call, give_call, step_call, poke_call, show_call};
ghost use Rattle.bench.specs.Archives.{write_call_outcome, new_call, add_call, close_call, check_call, record_call, whole_call, decided_call, sought_call};

use crate::packed::{Packed, found_bytes, handed_bytes};
use archive::{Put, Writer, decode_record};
use machine::{GuestAddress, Machine, Operation, Refusal};

pub fn malthobre_start(
    m: &mut Machine,
    count: usize,
    memory: &mut [u8],
    owners: &mut [u8],
    holders: &mut [u8],
) -> u64
    ensures { start_call_outcome result m.new memory.new owners.new holders.new ≡ start_call m.old count memory.old owners.old holders.old }
{
    let called = machine::start(count, memory, owners, holders);
    if called.answer.is_ok() {
        *m = called.machine;
    }
    called.answer.packed()
}

pub fn malthobre_give(m: &mut Machine, core: usize, operation: u8, address: u32, value: u32) -> u64
    ensures { call_outcome result m.new ≡ give_call m.old core operation address value }
{
    match Operation::of(operation, GuestAddress(address), value) {
        Some(asked) => machine::give_in_place(m, core, asked).packed(),
        None => Refusal::NotUnderstood.packed(),
    }
}

pub fn malthobre_step(
    m: &mut Machine,
    memory: &mut [u8],
    owners: &mut [u8],
    holders: &mut [u8],
    core: usize,
    made: &mut [u8; 16],
) -> u64
    ensures { step_call_outcome result m.new memory.new owners.new holders.new made.new ≡ step_call m.old memory.old owners.old holders.old core made.old }
{
    let stepped = machine::step_in_place(m, memory, owners, holders, core);
    if stepped.answer.is_ok() {
        *made = handed_bytes(stepped.made);
    }
    stepped.answer.packed()
}

pub fn malthobre_poke(
    m: &mut Machine,
    memory: &mut [u8],
    address: u32,
    value: u32,
    made: &mut [u8; 16],
) -> u64
    ensures { poke_call_outcome result m.new memory.new made.new ≡ poke_call m.old memory.old address value made.old }
{
    let called = machine::poke(*m, memory, GuestAddress(address), value);
    *m = called.machine;
    if called.answer.is_ok() {
        *made = handed_bytes(called.made);
    }
    called.answer.packed()
}

pub fn malthobre_show(m: &mut Machine, memory: &[u8], address: u32) -> u64
    ensures { call_outcome result m.new ≡ show_call m.old memory.now address }
{
    let called = machine::show(*m, memory, GuestAddress(address));
    *m = called.machine;
    called.answer.packed()
}

pub fn malthobre_writer_new(w: &mut Writer) -> u64
    ensures { call_outcome result w.new ≡ new_call }
{
    *w = Writer::new();
    Put::Nothing.packed()
}

pub fn malthobre_writer_add(w: &mut Writer, block: &mut [u8], made: &[u8; 16]) -> u64
    ensures { write_call_outcome result w.new block.new ≡ add_call w.old block.old made.now }
{
    let written = w.add(block, decode_record(*made));
    *w = written.writer;
    written.answer.packed()
}

pub fn malthobre_writer_close(w: &mut Writer, block: &mut [u8]) -> u64
    ensures { write_call_outcome result w.new block.new ≡ close_call w.old block.old }
{
    let written = w.close(block);
    *w = written.writer;
    written.answer.packed()
}

pub fn malthobre_block_check(block: &[u8], expected: u32, after_short: bool) -> u64
    ensures { result ≡ check_call block.now expected after_short }
{
    archive::check_block(block, expected, after_short).packed()
}

pub fn malthobre_block_record(
    block: &[u8],
    expected: u32,
    after_short: bool,
    place: usize,
    made: &mut [u8; 16],
) -> u64
    ensures { call_outcome result made.new ≡ record_call block.now expected after_short place made.old }
{
    let read = archive::record_at(block, expected, after_short, place);
    if let Ok(found) = read {
        *made = found_bytes(found);
    }
    read.packed()
}

pub fn malthobre_archive_check(bytes: &[u8]) -> u64
    ensures { result ≡ whole_call bytes.now }
{
    archive::check_archive(bytes).packed()
}

pub fn malthobre_archive_decided_by(bytes: &[u8]) -> u64
    ensures { result ≡ decided_call bytes.now }
{
    archive::decided_by(bytes).packed()
}

pub fn malthobre_archive_record(bytes: &[u8], number: u32, made: &mut [u8; 16]) -> u64
    ensures { call_outcome result made.new ≡ sought_call bytes.now number made.old }
{
    let read = archive::record_of_number(bytes, number);
    if let Ok(found) = read {
        *made = found_bytes(found);
    }
    read.packed()
}
