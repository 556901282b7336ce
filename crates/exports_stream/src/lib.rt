// The C face of MacaqueV, the write with a place table among it (specs/Tabled.antt): it and the plain write run one
// compiled loop. A writer's state crosses as a row of eleven words (specs/Row.antt), and how a stream
// opens as a mode and a value (specs/Calls.antt). A call answers a fault, of number 0 where nothing is
// refused, and a refusal changes nothing that was lent.
#![tactic(auto)]

ghost use Rattle.std.specs.Prelude.{◌≡◌, ◌≤◌, length};
ghost use Rattle.models.specs.Answers.{answered, no_fault, verdict};
ghost use Rattle.models.specs.Calls.{said_by};
ghost use Rattle.macaque_v.specs.Calls.{write_answer, write_memory};
ghost use Rattle.exports.specs.Face.{plain_fault, row_in, step_fault, step_row};
ghost use Rattle.exports_stream.specs.Row.{writer_length, writer_row, written_row, writer_in};
ghost use Rattle.exports_stream.specs.Calls.{opening_of, count_in, new_causes, reopen_causes_with};
ghost use Rattle.exports_stream.specs.Calls.{new_fault, new_row};
ghost use Rattle.exports_stream.specs.Calls.{reopen_fault, reopen_row, reopen_buffer, grid_fault, grid_out, sum_fault, sum_out};
ghost use Rattle.exports_stream.specs.Rescue.{rescue_fault, rescue_row, rescue_buffer};
ghost use Rattle.exports_stream.specs.Size.{number_after, most_bits_fault, most_bits_number, most_bytes_fault, most_bytes_number};
ghost use Rattle.exports_stream.specs.Tabled.{table_write_fault, table_write_row, table_write_buffer, table_write_words, table_write_entries};

use exports::words;
use macaque_v::{MacaqueV, Opening, read};
use models::{ErrorBound, Fault, Refusal, Refused};

pub mod row;

// ---- the writer's calls

// A writer before any value into the row: mode 0 stores the first value in full, mode 1 opens on the
// value `opening`.
#[tactic(auto, unfolding(models::specs::Answers::judge, crate::specs::Calls::new_fault, crate::specs::Calls::new_row))]
pub fn modelardb_macaque_v_new(
    kind: u32,
    bound: u32,
    mode: u32,
    opening: u32,
    state: &mut [u64],
) -> Fault
    ensures fault { result ≡ new_fault kind bound mode opening state.old }
    ensures row { state.new ≡ new_row kind bound mode opening state.old }
{
    let b = exports::bound_of(kind, bound);
    match judge_new(b, mode, state.len()) {
        Err(r) => Fault::from(r),
        Ok(()) => put_opened(MacaqueV::new(b, opening_of(mode, opening)), state),
    }
}

// Writes the values behind the state's place; the row becomes the state after them, its words of the
// bound and of the mode as they were. A row that is too short stands for no state, as one with wrong words
// does: it is refused with 2, behind 1 for its bound.
pub fn modelardb_macaque_v_compress_values(
    state: &mut [u64],
    values: &[u32],
    buffer: &mut [u8],
) -> Fault
    ensures fault { result ≡ step_fault (write_answer (writer_in state.old) values.now buffer.old) }
    ensures row { state.new ≡ step_row (written_row state.old) state.old (write_answer (writer_in state.old) values.now buffer.old) }
    ensures bytes { buffer.new ≡ write_memory (writer_in state.old) values.now buffer.old }
{
    match row::writer_of(state).compress_values(values, buffer) {
        Err(Refused { cause, .. }) => Fault::from(cause),
        Ok(after) => put_written(after, state),
    }
}

// Writes the values behind the state's place, and behind the entries in use that of each value whose number is a
// multiple of 64; the row becomes the state after them, and the number that of the entries now in use.
pub fn modelardb_table_compress_values(
    state: &mut [u64],
    values: &[u32],
    buffer: &mut [u8],
    table: &mut [u64],
    entries: &mut usize,
) -> Fault
    ensures fault { result ≡ table_write_fault state.old values.now buffer.old table.old entries.old }
    ensures row { state.new ≡ table_write_row state.old values.now buffer.old table.old entries.old }
    ensures bytes { buffer.new ≡ table_write_buffer state.old values.now buffer.old table.old entries.old }
    ensures words { table.new ≡ table_write_words state.old values.now buffer.old table.old entries.old }
    ensures number { entries.new ≡ table_write_entries state.old values.now buffer.old table.old entries.old }
{
    let given = *entries;
    match place_table::compress_values(row::writer_of(state), values, buffer, table, given) {
        Err(Refused { cause, .. }) => Fault::from(cause),
        Ok((after, n)) => {
            *entries = n;
            put_written(after, state)
        }
    }
}

// The writer behind the first k of the `count` values in the buffer's first `used` bytes into the row; the
// bits behind them in the byte that they end in are zeroed.
#[tactic(auto, unfolding(models::specs::Answers::judge, crate::specs::Calls::reopen_fault, crate::specs::Calls::reopen_row, crate::specs::Calls::reopen_buffer))]
pub fn modelardb_macaque_v_reopen(
    buffer: &mut [u8],
    used: usize,
    count: usize,
    k: usize,
    mode: u32,
    opening: u32,
    kind: u32,
    bound: u32,
    state: &mut [u64],
) -> Fault
    ensures fault { result ≡ reopen_fault buffer.old used count k mode opening kind bound state.old }
    ensures row { state.new ≡ reopen_row buffer.old used count k mode opening kind bound state.old }
    ensures bytes { buffer.new ≡ reopen_buffer buffer.old used count k mode opening kind bound state.old }
{
    let b = exports::bound_of(kind, bound);
    let n = count_in(mode, count);
    match judge_reopen(b, buffer.len(), used, n, k, state.len()) {
        Err(r) => Fault::from(r),
        Ok(()) => {
            let writer = MacaqueV::reopen(buffer, used, n, k, opening_of(mode, opening), b);
            put_opened(writer, state)
        }
    }
}

// The writer behind the values that arrived whole in the buffer's first `used` bytes, `limit` at most, into the row, whose length says
// how many they are; the bits behind them in the byte that they end in are zeroed.
#[tactic(auto, unfolding(models::specs::Answers::judge, crate::specs::Rescue::rescue_fault, crate::specs::Rescue::rescue_row, crate::specs::Rescue::rescue_buffer))]
pub fn modelardb_macaque_v_rescue(
    buffer: &mut [u8],
    used: usize,
    limit: usize,
    mode: u32,
    opening: u32,
    kind: u32,
    bound: u32,
    state: &mut [u64],
) -> Fault
    ensures fault { result ≡ rescue_fault buffer.old used limit mode opening kind bound state.old }
    ensures row { state.new ≡ rescue_row buffer.old used limit mode opening kind bound state.old }
    ensures bytes { buffer.new ≡ rescue_buffer buffer.old used limit mode opening kind bound state.old }
{
    let b = exports::bound_of(kind, bound);
    let n = count_in(mode, limit);
    match judge_reopen(b, buffer.len(), used, n, n, state.len()) {
        Err(r) => Fault::from(r),
        Ok(()) => {
            let writer = MacaqueV::rescue(buffer, used, n, opening_of(mode, opening), b);
            put_opened(writer, state)
        }
    }
}

// The words of the state after a write to the front of the row that holds it.
#[tactic(auto, unfolding(exports::specs::Face::fault_said, exports::specs::Inner::Put::front_after, crate::specs::Row::written_row))]
fn put_written(after: MacaqueV, state: &mut [u64]) -> Fault
    requires { writer_length ≤ length state.old }
    ensures fault { result ≡ no_fault }
    ensures row { state.new ≡ row_in (written_row state.old) state.old (answered after) }
{
    exports::put_words(&row::written_words(state, after), state)
}

// ---- the reading calls

// The values of a stream, `count` of them, into the first places of `out`.
#[tactic(auto, unfolding(crate::specs::Calls::grid_fault, crate::specs::Calls::grid_out))]
pub fn modelardb_macaque_v_grid(
    bytes: &[u8],
    count: usize,
    mode: u32,
    opening: u32,
    out: &mut [u32],
) -> Fault
    ensures fault { result ≡ grid_fault bytes.now count mode opening out.old }
    ensures values { out.new ≡ grid_out bytes.now count mode opening out.old }
{
    let drawn = read::grid(bytes, count_in(mode, count), opening_of(mode, opening), out);
    fault_in(drawn)
}

// The sum of the values of a stream, `count` of them, into out[0].
#[tactic(auto, unfolding(crate::specs::Calls::sum_fault, crate::specs::Calls::sum_out))]
pub fn modelardb_macaque_v_sum(
    bytes: &[u8],
    count: usize,
    mode: u32,
    opening: u32,
    out: &mut [u32],
) -> Fault
    ensures fault { result ≡ sum_fault bytes.now count mode opening out.old }
    ensures values { out.new ≡ sum_out bytes.now count mode opening out.old }
{
    let answer = read::sum(bytes, count_in(mode, count), opening_of(mode, opening));
    exports::put_value(answer, out)
}

// ---- how large a stream can get

// The most bits that `count` values take in a stream of this mode, by any bound; a refusal leaves the number.
#[tactic(auto, unfolding(crate::specs::Size::most_bits_fault, crate::specs::Size::most_bits_number))]
pub fn modelardb_macaque_v_most_bits(count: usize, mode: u32, bits: &mut usize) -> Fault
    ensures fault { result ≡ most_bits_fault count mode }
    ensures number { bits.new ≡ most_bits_number count mode bits.old }
{
    let most = MacaqueV::most_bits(count_in(mode, count), opening_of(mode, 0));
    put_number(most, bits)
}

// The bytes that hold them: a new writer that is lent so many refuses no such values for want of room.
#[tactic(auto, unfolding(crate::specs::Size::most_bytes_fault, crate::specs::Size::most_bytes_number))]
pub fn modelardb_macaque_v_most_bytes(count: usize, mode: u32, bytes: &mut usize) -> Fault
    ensures fault { result ≡ most_bytes_fault count mode }
    ensures number { bytes.new ≡ most_bytes_number count mode bytes.old }
{
    let most = MacaqueV::most_bytes(count_in(mode, count), opening_of(mode, 0));
    put_number(most, bytes)
}

fn put_number(answer: Result<usize, Refusal>, number: &mut usize) -> Fault
    ensures fault { result ≡ plain_fault (said_by answer) }
    ensures number { number.new ≡ number_after number.old (said_by answer) }
{
    match answer {
        Err(r) => Fault::from(r),
        Ok(n) => {
            *number = n;
            exports::ACCEPTED
        }
    }
}

// ---- how a stream opens

pub fn opening_of(mode: u32, opening: u32) -> Opening
    ensures { result ≡ opening_of mode opening }
{
    match mode {
        0 => Opening::First,
        _ => Opening::On(opening),
    }
}

// A mode above 1 is refused with 3, as a count above its limit is: it makes the count such a one.
pub fn count_in(mode: u32, count: usize) -> usize
    ensures { result ≡ count_in mode count }
{
    if mode <= 1 { count } else { words::NO_COUNT }
}

// ---- the causes of refusal of a call that hands out a state: the row has to hold it

#[tactic(auto, unfolding(models::specs::Answers::judge))]
fn judge_new(error_bound: ErrorBound, mode: u32, words: usize) -> Result<(), Refusal>
    ensures { said_by result ≡ verdict (new_causes error_bound mode words) }
{
    if !models::bound_allowed(error_bound) {
        return Err(Refusal::BoundNotAllowed);
    }
    if 1 < mode {
        return Err(Refusal::OverLimit);
    }
    row::judge_row(words)
}

// What is judged before the buffer is touched; of a rescue what is of a reopening at its limit.
#[tactic(auto, unfolding(models::specs::Answers::judge))]
fn judge_reopen(
    error_bound: ErrorBound,
    room: usize,
    used: usize,
    count: usize,
    k: usize,
    words: usize,
) -> Result<(), Refusal>
    ensures { said_by result ≡ verdict (reopen_causes_with error_bound room used count k words) }
{
    read::judge_reopen(error_bound, room, used, count, k)?;
    row::judge_row(words)
}

// The state's words to the front of the row, where there is one.
#[tactic(auto, unfolding(exports::specs::Face::fault_said, exports::specs::Inner::Put::front_after, crate::specs::Row::writer_row))]
pub fn put_opened(writer: Result<MacaqueV, Refusal>, state: &mut [u64]) -> Fault
    requires { writer_length ≤ length state.old }
    ensures fault { result ≡ plain_fault (said_by writer) }
    ensures row { state.new ≡ row_in writer_row state.old (said_by writer) }
{
    match writer {
        Err(r) => Fault::from(r),
        Ok(m) => exports::put_words(&row::writer_words(m), state),
    }
}

// The fault of a call that hands over no values, or has them in lent memory.
pub fn fault_in(answer: Result<(), Refusal>) -> Fault
    ensures { result ≡ plain_fault (said_by answer) }
{
    match answer {
        Err(r) => Fault::from(r),
        Ok(()) => exports::ACCEPTED,
    }
}
