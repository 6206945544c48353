#![tactic(auto)]
// What is exported to C, as bench/malthobre.h declares it: each export is the call of `bench` of its name. Twins of
// those calls for the C interface, since a crate is a library or a static library.
ghost use Rattle.std.specs.Prelude.{◌≡◌};
ghost use Rattle.bench.specs.CallOutcome.{call_outcome};
ghost use Rattle.bench.specs.Machines.{start_call_outcome, step_call_outcome, poke_call_outcome, start_call, give_call, step_call, poke_call, show_call};
ghost use Rattle.bench.specs.Archives.{write_call_outcome, new_call, add_call, close_call, check_call, record_call, whole_call, decided_call, sought_call};

use archive::Writer;
use machine::Machine;

#[unsafe(no_mangle)]
pub extern "C" fn malthobre_start(
    m: &mut Machine,
    count: usize,
    memory: &mut [u8],
    owners: &mut [u8],
    holders: &mut [u8],
) -> u64
    ensures { start_call_outcome result m.new memory.new owners.new holders.new ≡ start_call m.old count memory.old owners.old holders.old }
{
    bench::malthobre_start(m, count, memory, owners, holders)
}

#[unsafe(no_mangle)]
pub extern "C" fn malthobre_give(
    m: &mut Machine,
    core: usize,
    operation: u8,
    address: u32,
    value: u32,
) -> u64
    ensures { call_outcome result m.new ≡ give_call m.old core operation address value }
{
    bench::malthobre_give(m, core, operation, address, value)
}

#[unsafe(no_mangle)]
pub extern "C" fn malthobre_step(
    m: &mut Machine,
    memory: &mut [u8],
    owners: &mut [u8],
    holders: &mut [u8],
    core: usize,
    made: &mut [u8; 16],
) -> u64
    ensures { step_call_outcome result m.new memory.new owners.new holders.new made.new ≡ step_call m.old memory.old owners.old holders.old core made.old }
{
    bench::malthobre_step(m, memory, owners, holders, core, made)
}

#[unsafe(no_mangle)]
pub extern "C" fn malthobre_poke(
    m: &mut Machine,
    memory: &mut [u8],
    address: u32,
    value: u32,
    made: &mut [u8; 16],
) -> u64
    ensures { poke_call_outcome result m.new memory.new made.new ≡ poke_call m.old memory.old address value made.old }
{
    bench::malthobre_poke(m, memory, address, value, made)
}

#[unsafe(no_mangle)]
pub extern "C" fn malthobre_show(m: &mut Machine, memory: &[u8], address: u32) -> u64
    ensures { call_outcome result m.new ≡ show_call m.old memory.now address }
{
    bench::malthobre_show(m, memory, address)
}

#[unsafe(no_mangle)]
pub extern "C" fn malthobre_writer_new(w: &mut Writer) -> u64
    ensures { call_outcome result w.new ≡ new_call }
{
    bench::malthobre_writer_new(w)
}

#[unsafe(no_mangle)]
pub extern "C" fn malthobre_writer_add(w: &mut Writer, block: &mut [u8], made: &[u8; 16]) -> u64
    ensures { write_call_outcome result w.new block.new ≡ add_call w.old block.old made.now }
{
    bench::malthobre_writer_add(w, block, made)
}

#[unsafe(no_mangle)]
pub extern "C" fn malthobre_writer_close(w: &mut Writer, block: &mut [u8]) -> u64
    ensures { write_call_outcome result w.new block.new ≡ close_call w.old block.old }
{
    bench::malthobre_writer_close(w, block)
}

#[unsafe(no_mangle)]
pub extern "C" fn malthobre_block_check(block: &[u8], expected: u32, after_short: bool) -> u64
    ensures { result ≡ check_call block.now expected after_short }
{
    bench::malthobre_block_check(block, expected, after_short)
}

#[unsafe(no_mangle)]
pub extern "C" fn malthobre_block_record(
    block: &[u8],
    expected: u32,
    after_short: bool,
    place: usize,
    made: &mut [u8; 16],
) -> u64
    ensures { call_outcome result made.new ≡ record_call block.now expected after_short place made.old }
{
    bench::malthobre_block_record(block, expected, after_short, place, made)
}

#[unsafe(no_mangle)]
pub extern "C" fn malthobre_archive_check(bytes: &[u8]) -> u64
    ensures { result ≡ whole_call bytes.now }
{
    bench::malthobre_archive_check(bytes)
}

#[unsafe(no_mangle)]
pub extern "C" fn malthobre_archive_decided_by(bytes: &[u8]) -> u64
    ensures { result ≡ decided_call bytes.now }
{
    bench::malthobre_archive_decided_by(bytes)
}

#[unsafe(no_mangle)]
pub extern "C" fn malthobre_archive_record(bytes: &[u8], number: u32, made: &mut [u8; 16]) -> u64
    ensures { call_outcome result made.new ≡ sought_call bytes.now number made.old }
{
    bench::malthobre_archive_record(bytes, number, made)
}
