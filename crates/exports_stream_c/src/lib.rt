// The C face of MacaqueV, as a static library: each call is that of crates/exports_stream, with its clauses.

#![tactic(auto)]

ghost use Rattle.std.specs.Prelude.{◌≡◌};
ghost use Rattle.macaque_v.specs.Calls.{write_answer, write_memory};
ghost use Rattle.exports.specs.Face.{step_fault, step_row};
ghost use Rattle.exports_stream.specs.Row.{written_row, writer_in};
ghost use Rattle.exports_stream.specs.Calls.{new_fault, new_row, reopen_fault, reopen_row, reopen_buffer, grid_fault, grid_out, sum_fault, sum_out};
ghost use Rattle.exports_stream.specs.Rescue.{rescue_fault, rescue_row, rescue_buffer};
ghost use Rattle.exports_stream.specs.Size.{most_bits_fault, most_bits_number, most_bytes_fault, most_bytes_number};
ghost use Rattle.exports_stream.specs.Tabled.{table_write_fault, table_write_row, table_write_buffer, table_write_words, table_write_entries};

use models::Fault;

// A writer before any value into the row: mode 0 stores the first value in full, mode 1 opens on the
// value `opening`.
#[unsafe(no_mangle)]
pub extern "C" fn modelardb_macaque_v_new(
    kind: u32,
    bound: u32,
    mode: u32,
    opening: u32,
    state: &mut [u64],
) -> Fault
    ensures fault { result ≡ new_fault kind bound mode opening state.old }
    ensures row { state.new ≡ new_row kind bound mode opening state.old }
{
    exports_stream::modelardb_macaque_v_new(kind, bound, mode, opening, state)
}

// Writes the values behind the state's place; the row becomes the state after them, its words of the
// bound and of the mode as they were. A row that is too short stands for no state, as one with wrong words
// does: it is refused with 2, behind 1 for its bound.
#[unsafe(no_mangle)]
pub extern "C" fn modelardb_macaque_v_compress_values(
    state: &mut [u64],
    values: &[u32],
    buffer: &mut [u8],
) -> Fault
    ensures fault { result ≡ step_fault (write_answer (writer_in state.old) values.now buffer.old) }
    ensures row { state.new ≡ step_row (written_row state.old) state.old (write_answer (writer_in state.old) values.now buffer.old) }
    ensures bytes { buffer.new ≡ write_memory (writer_in state.old) values.now buffer.old }
{
    exports_stream::modelardb_macaque_v_compress_values(state, values, buffer)
}

// Writes the values behind the state's place, and behind the entries in use that of each value whose number is a
// multiple of 64; the row becomes the state after them, and the number that of the entries now in use.
#[unsafe(no_mangle)]
pub extern "C" fn modelardb_table_compress_values(
    state: &mut [u64],
    values: &[u32],
    buffer: &mut [u8],
    table: &mut [u64],
    entries: &mut usize,
) -> Fault
    ensures fault { result ≡ table_write_fault state.old values.now buffer.old table.old entries.old }
    ensures row { state.new ≡ table_write_row state.old values.now buffer.old table.old entries.old }
    ensures bytes { buffer.new ≡ table_write_buffer state.old values.now buffer.old table.old entries.old }
    ensures words { table.new ≡ table_write_words state.old values.now buffer.old table.old entries.old }
    ensures number { entries.new ≡ table_write_entries state.old values.now buffer.old table.old entries.old }
{
    exports_stream::modelardb_table_compress_values(state, values, buffer, table, entries)
}

// The writer behind the first k of the `count` values in the buffer's first `used` bytes into the row; the
// bits behind them in the byte that they end in are zeroed.
#[unsafe(no_mangle)]
pub extern "C" fn modelardb_macaque_v_reopen(
    buffer: &mut [u8],
    used: usize,
    count: usize,
    k: usize,
    mode: u32,
    opening: u32,
    kind: u32,
    bound: u32,
    state: &mut [u64],
) -> Fault
    ensures fault { result ≡ reopen_fault buffer.old used count k mode opening kind bound state.old }
    ensures row { state.new ≡ reopen_row buffer.old used count k mode opening kind bound state.old }
    ensures bytes { buffer.new ≡ reopen_buffer buffer.old used count k mode opening kind bound state.old }
{
    exports_stream::modelardb_macaque_v_reopen(
        buffer, used, count, k, mode, opening, kind, bound, state,
    )
}

// The writer behind the values that arrived whole in the buffer's first `used` bytes, `limit` at most, into the row, whose length says
// how many they are; the bits behind them in the byte that they end in are zeroed.
#[unsafe(no_mangle)]
pub extern "C" fn modelardb_macaque_v_rescue(
    buffer: &mut [u8],
    used: usize,
    limit: usize,
    mode: u32,
    opening: u32,
    kind: u32,
    bound: u32,
    state: &mut [u64],
) -> Fault
    ensures fault { result ≡ rescue_fault buffer.old used limit mode opening kind bound state.old }
    ensures row { state.new ≡ rescue_row buffer.old used limit mode opening kind bound state.old }
    ensures bytes { buffer.new ≡ rescue_buffer buffer.old used limit mode opening kind bound state.old }
{
    exports_stream::modelardb_macaque_v_rescue(
        buffer, used, limit, mode, opening, kind, bound, state,
    )
}

// The values of a stream, `count` of them, into the first places of `out`.
#[unsafe(no_mangle)]
pub extern "C" fn modelardb_macaque_v_grid(
    bytes: &[u8],
    count: usize,
    mode: u32,
    opening: u32,
    out: &mut [u32],
) -> Fault
    ensures fault { result ≡ grid_fault bytes.now count mode opening out.old }
    ensures values { out.new ≡ grid_out bytes.now count mode opening out.old }
{
    exports_stream::modelardb_macaque_v_grid(bytes, count, mode, opening, out)
}

// The sum of the values of a stream, `count` of them, into out[0].
#[unsafe(no_mangle)]
pub extern "C" fn modelardb_macaque_v_sum(
    bytes: &[u8],
    count: usize,
    mode: u32,
    opening: u32,
    out: &mut [u32],
) -> Fault
    ensures fault { result ≡ sum_fault bytes.now count mode opening out.old }
    ensures values { out.new ≡ sum_out bytes.now count mode opening out.old }
{
    exports_stream::modelardb_macaque_v_sum(bytes, count, mode, opening, out)
}

// The most bits that `count` values take in a stream of this mode, by any bound; a refusal leaves the number.
#[unsafe(no_mangle)]
pub extern "C" fn modelardb_macaque_v_most_bits(count: usize, mode: u32, bits: &mut usize) -> Fault
    ensures fault { result ≡ most_bits_fault count mode }
    ensures number { bits.new ≡ most_bits_number count mode bits.old }
{
    exports_stream::modelardb_macaque_v_most_bits(count, mode, bits)
}

// The bytes that hold them: a new writer that is lent so many refuses no such values for want of room.
#[unsafe(no_mangle)]
pub extern "C" fn modelardb_macaque_v_most_bytes(
    count: usize,
    mode: u32,
    bytes: &mut usize,
) -> Fault
    ensures fault { result ≡ most_bytes_fault count mode }
    ensures number { bytes.new ≡ most_bytes_number count mode bytes.old }
{
    exports_stream::modelardb_macaque_v_most_bytes(count, mode, bytes)
}
