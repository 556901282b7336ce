// Writes, for some counts and in both modes, values that take as many bits as so many can: into as many bytes as
// `most_bytes` answers, and into one fewer. Says how many bits that took, how many they can take at most, and how the
// second write was refused.
#![tactic(auto)]

use macaque_v::{MacaqueV, Opening};
use models::{ErrorBound, Fault, Refusal};

const STDOUT_FILENO: i32 = 1;

// The value that a stream without a first one opens on: 1.0.
const OPENING: u32 = 0x3F80_0000;

fn main() {
    for count in [1, 2, 3, 64, 1_000, 65_536] {
        both(count);
    }
}

fn both(count: usize) {
    print(count, b" with a first value: ");
    fill(count, true, Opening::First);
    print(count, b" without: ");
    fill(count, false, Opening::On(OPENING));
}

// Room for the values, and for their bytes: arrays of fixed size, since the project has no heap.
fn fill(count: usize, first: bool, opening: Opening) {
    let mut values = [0u32; 65536];
    let mut buffer = [0u8; 360449];
    fill_in(&mut values, count, first, opening, &mut buffer);
    io::write_all(STDOUT_FILENO, b"\n");
}

fn fill_in(values: &mut [u32], count: usize, first: bool, opening: Opening, buffer: &mut [u8]) {
    draw(values, count, first);
    if count <= values.len() {
        tell(&values[..count], opening, buffer);
    }
}

// The first `count` values. Each differs from the one before by one of two patterns in turn, each of which sets a window of
// 31 bits that the other does not fit into, and the last by one that has all 32. A first value that is stored in full is 0.
fn draw(values: &mut [u32], count: usize, first: bool) {
    let mut last: u32 = if first { 0 } else { OPENING };
    for (i, value) in values.iter_mut().enumerate() {
        last ^= difference(i, count, first);
        *value = last;
    }
}

// By what the i-th of `count` values differs from the one before it.
fn difference(i: usize, count: usize, first: bool) -> u32 {
    if first & (i == 0) {
        return 0;
    }
    if i.wrapping_add(1) == count {
        return 0x8000_0001;
    }
    if i % 2 == 0 { 0x4000_0001 } else { 0x8000_0002 }
}

// How many bits the values take, and how many so many can.
fn tell(values: &[u32], opening: Opening, buffer: &mut [u8]) {
    let bytes = MacaqueV::most_bytes(values.len(), opening).unwrap_or(0);
    write(values, opening, buffer, bytes);
    print(
        MacaqueV::most_bits(values.len(), opening).unwrap_or(0),
        b" at most, in ",
    );
    print(bytes, b" bytes; in one fewer ");
    if 0 < bytes {
        write(values, opening, buffer, bytes - 1);
    }
}

// A fresh lossless writer, lent the first bytes of the buffer.
fn write(values: &[u32], opening: Opening, buffer: &mut [u8], bytes: usize) {
    if buffer.len() < bytes {
        return;
    }
    let Ok(writer) = MacaqueV::new(ErrorBound::Lossless, opening) else {
        return;
    };
    match writer.compress_values(values, &mut buffer[..bytes]) {
        Err(refused) => tell_refusal(refused.cause),
        Ok(after) => print(after.place, b" bits, "),
    }
}

fn tell_refusal(r: Refusal) {
    let fault = Fault::from(r);
    io::write_all(STDOUT_FILENO, b"refused with ");
    io::print_decimal(STDOUT_FILENO, fault.number as u64);
}

fn print(n: usize, what: &[u8]) {
    io::print_decimal(STDOUT_FILENO, n as u64);
    io::write_all(STDOUT_FILENO, what);
}
