// The C face of the place table beside a stream, but for the write with one, which stands beside the plain write in
// crates/exports_stream. A writer's state crosses as its row of eleven words, and how a
// stream opens as a mode and a value (crates/exports_stream). A table crosses as its lent words, four to an
// entry, and the number of entries in use beside it; a call that changes that number is handed a place for it.
// A call answers a fault, of number 0 where nothing is refused, and a refusal changes nothing that was lent.
#![tactic(auto)]

ghost use Rattle.std.specs.Prelude.{◌≡◌};
ghost use Rattle.models.specs.Answers.{verdict};
ghost use Rattle.models.specs.Calls.{said_by};
ghost use Rattle.exports_table.specs.Calls.{table_reopen_causes_with, table_reopen_fault, table_reopen_row, table_reopen_buffer, table_reopen_entries};
ghost use Rattle.exports_table.specs.Rescue.{table_rescue_causes_with, table_rescue_fault, table_rescue_row, table_rescue_buffer, table_rescue_words, table_rescue_entries};
ghost use Rattle.exports_table.specs.Calls.{table_check_fault, table_range_fault, table_range_out};

use exports_stream::row;
use models::{ErrorBound, Fault, Refusal};

// ---- the writer's calls

// The writer behind the first k of the `count` values in the buffer's first `used` bytes into the row, and how many
// entries of their table are of these into `entries`. The table's words are neither read nor changed.
#[tactic(auto, unfolding(models::specs::Answers::judge, crate::specs::Calls::table_reopen_fault, crate::specs::Calls::table_reopen_row, crate::specs::Calls::table_reopen_buffer, crate::specs::Calls::table_reopen_entries))]
pub fn modelardb_table_reopen(
    buffer: &mut [u8],
    used: usize,
    count: usize,
    k: usize,
    mode: u32,
    opening: u32,
    kind: u32,
    bound: u32,
    state: &mut [u64],
    table: &[u64],
    entries: &mut usize,
) -> Fault
    ensures fault { result ≡ table_reopen_fault buffer.old used count k mode opening kind bound state.old table.now entries.old }
    ensures row { state.new ≡ table_reopen_row buffer.old used count k mode opening kind bound state.old table.now entries.old }
    ensures bytes { buffer.new ≡ table_reopen_buffer buffer.old used count k mode opening kind bound state.old table.now entries.old }
    ensures number { entries.new ≡ table_reopen_entries buffer.old used count k mode opening kind bound state.old table.now entries.old }
{
    let given = *entries;
    let b = exports::bound_of(kind, bound);
    let n = exports_stream::count_in(mode, count);
    match judge_reopen(b, buffer.len(), used, n, k, table.len(), given, state.len()) {
        Err(r) => Fault::from(r),
        Ok(()) => {
            let o = exports_stream::opening_of(mode, opening);
            match place_table::reopen(buffer, used, n, k, o, b, table, given) {
                Err(r) => Fault::from(r),
                Ok((m, stay)) => {
                    *entries = stay;
                    exports_stream::put_opened(Ok(m), state)
                }
            }
        }
    }
}

// The writer behind the values that arrived whole in the buffer's first `used` bytes, `limit` at most, into the row, and the table of them, made anew, into
// the words; how many entries it has into `entries`. Neither the words nor the number that were there are looked at.
#[tactic(auto, unfolding(models::specs::Answers::judge, crate::specs::Rescue::table_rescue_fault, crate::specs::Rescue::table_rescue_row, crate::specs::Rescue::table_rescue_buffer, crate::specs::Rescue::table_rescue_words, crate::specs::Rescue::table_rescue_entries))]
pub fn modelardb_table_rescue(
    buffer: &mut [u8],
    used: usize,
    limit: usize,
    mode: u32,
    opening: u32,
    kind: u32,
    bound: u32,
    state: &mut [u64],
    table: &mut [u64],
    entries: &mut usize,
) -> Fault
    ensures fault { result ≡ table_rescue_fault buffer.old used limit mode opening kind bound state.old table.old }
    ensures row { state.new ≡ table_rescue_row buffer.old used limit mode opening kind bound state.old table.old }
    ensures bytes { buffer.new ≡ table_rescue_buffer buffer.old used limit mode opening kind bound state.old table.old }
    ensures words { table.new ≡ table_rescue_words buffer.old used limit mode opening kind bound state.old table.old }
    ensures number { entries.new ≡ table_rescue_entries buffer.old used limit mode opening kind bound state.old table.old entries.old }
{
    let b = exports::bound_of(kind, bound);
    let n = exports_stream::count_in(mode, limit);
    match judge_rescue(b, buffer.len(), used, n, table.len(), state.len()) {
        Err(r) => Fault::from(r),
        Ok(()) => {
            let o = exports_stream::opening_of(mode, opening);
            match place_table::rescue(buffer, used, n, o, b, table) {
                Err(r) => Fault::from(r),
                Ok((m, kept)) => {
                    *entries = kept;
                    exports_stream::put_opened(Ok(m), state)
                }
            }
        }
    }
}

// ---- the reading calls

// Whether the entries in use are those of the stream, `count` values in these bytes.
#[tactic(auto, unfolding(crate::specs::Calls::table_check_fault))]
pub fn modelardb_table_check(
    bytes: &[u8],
    count: usize,
    mode: u32,
    opening: u32,
    table: &[u64],
    entries: usize,
) -> Fault
    ensures { result ≡ table_check_fault bytes.now count mode opening table.now entries }
{
    let n = exports_stream::count_in(mode, count);
    let o = exports_stream::opening_of(mode, opening);
    exports_stream::fault_in(place_table::check(bytes, n, o, table, entries))
}

// The values p to q - 1 of a stream of `count`, into the first places of `out`: read from the entry at or before p.
#[tactic(auto, unfolding(crate::specs::Calls::table_range_fault, crate::specs::Calls::table_range_out))]
pub fn modelardb_table_range(
    bytes: &[u8],
    count: usize,
    mode: u32,
    opening: u32,
    table: &[u64],
    entries: usize,
    p: usize,
    q: usize,
    out: &mut [u32],
) -> Fault
    ensures fault { result ≡ table_range_fault bytes.now count mode opening table.now entries p q out.old }
    ensures values { out.new ≡ table_range_out bytes.now count mode opening table.now entries p q out.old }
{
    let n = exports_stream::count_in(mode, count);
    let o = exports_stream::opening_of(mode, opening);
    exports_stream::fault_in(place_table::range(bytes, n, o, table, entries, p, q, out))
}

// ---- the causes of refusal of a reopening and of a rescue: the row has to hold the state

#[tactic(auto, unfolding(models::specs::Answers::judge))]
fn judge_rescue(
    error_bound: ErrorBound,
    room: usize,
    used: usize,
    limit: usize,
    words: usize,
    row_words: usize,
) -> Result<(), Refusal>
    ensures { said_by result ≡ verdict (table_rescue_causes_with error_bound room used limit words row_words) }
{
    place_table::judge_rescue(error_bound, room, used, limit, words)?;
    row::judge_row(row_words)
}

// What is judged before the buffer is touched.
#[tactic(auto, unfolding(models::specs::Answers::judge))]
fn judge_reopen(
    error_bound: ErrorBound,
    room: usize,
    used: usize,
    count: usize,
    k: usize,
    words: usize,
    entries: usize,
    row_words: usize,
) -> Result<(), Refusal>
    ensures { said_by result ≡ verdict (table_reopen_causes_with error_bound room used count k words entries row_words) }
{
    place_table::judge_reopen(error_bound, room, used, count, k, words, entries)?;
    row::judge_row(row_words)
}
