// The C face of the place table, as a static library: each call is that of crates/exports_table, with its clauses.

#![tactic(auto)]

ghost use Rattle.std.specs.Prelude.{◌≡◌};
ghost use Rattle.exports_table.specs.Calls.{table_reopen_fault, table_reopen_row, table_reopen_buffer, table_reopen_entries, table_check_fault, table_range_fault, table_range_out};
ghost use Rattle.exports_table.specs.Rescue.{table_rescue_fault, table_rescue_row, table_rescue_buffer, table_rescue_words, table_rescue_entries};

use models::Fault;

// The writer behind the first k of the `count` values in the buffer's first `used` bytes into the row, and how many
// entries of their table are of these into `entries`. The table's words are neither read nor changed.
#[unsafe(no_mangle)]
pub extern "C" fn modelardb_table_reopen(
    buffer: &mut [u8],
    used: usize,
    count: usize,
    k: usize,
    mode: u32,
    opening: u32,
    kind: u32,
    bound: u32,
    state: &mut [u64],
    table: &[u64],
    entries: &mut usize,
) -> Fault
    ensures fault { result ≡ table_reopen_fault buffer.old used count k mode opening kind bound state.old table.now entries.old }
    ensures row { state.new ≡ table_reopen_row buffer.old used count k mode opening kind bound state.old table.now entries.old }
    ensures bytes { buffer.new ≡ table_reopen_buffer buffer.old used count k mode opening kind bound state.old table.now entries.old }
    ensures number { entries.new ≡ table_reopen_entries buffer.old used count k mode opening kind bound state.old table.now entries.old }
{
    exports_table::modelardb_table_reopen(
        buffer, used, count, k, mode, opening, kind, bound, state, table, entries,
    )
}

// The writer behind the values that arrived whole in the buffer's first `used` bytes, `limit` at most, into the row, and the table of them, made anew, into
// the words; how many entries it has into `entries`. Neither the words nor the number that were there are looked at.
#[unsafe(no_mangle)]
pub extern "C" fn modelardb_table_rescue(
    buffer: &mut [u8],
    used: usize,
    limit: usize,
    mode: u32,
    opening: u32,
    kind: u32,
    bound: u32,
    state: &mut [u64],
    table: &mut [u64],
    entries: &mut usize,
) -> Fault
    ensures fault { result ≡ table_rescue_fault buffer.old used limit mode opening kind bound state.old table.old }
    ensures row { state.new ≡ table_rescue_row buffer.old used limit mode opening kind bound state.old table.old }
    ensures bytes { buffer.new ≡ table_rescue_buffer buffer.old used limit mode opening kind bound state.old table.old }
    ensures words { table.new ≡ table_rescue_words buffer.old used limit mode opening kind bound state.old table.old }
    ensures number { entries.new ≡ table_rescue_entries buffer.old used limit mode opening kind bound state.old table.old entries.old }
{
    exports_table::modelardb_table_rescue(
        buffer, used, limit, mode, opening, kind, bound, state, table, entries,
    )
}

// Whether the entries in use are those of the stream, `count` values in these bytes.
#[unsafe(no_mangle)]
pub extern "C" fn modelardb_table_check(
    bytes: &[u8],
    count: usize,
    mode: u32,
    opening: u32,
    table: &[u64],
    entries: usize,
) -> Fault
    ensures { result ≡ table_check_fault bytes.now count mode opening table.now entries }
{
    exports_table::modelardb_table_check(bytes, count, mode, opening, table, entries)
}

// The values p to q - 1 of a stream of `count`, into the first places of `out`: read from the entry at or before p.
#[unsafe(no_mangle)]
pub extern "C" fn modelardb_table_range(
    bytes: &[u8],
    count: usize,
    mode: u32,
    opening: u32,
    table: &[u64],
    entries: usize,
    p: usize,
    q: usize,
    out: &mut [u32],
) -> Fault
    ensures fault { result ≡ table_range_fault bytes.now count mode opening table.now entries p q out.old }
    ensures values { out.new ≡ table_range_out bytes.now count mode opening table.now entries p q out.old }
{
    exports_table::modelardb_table_range(bytes, count, mode, opening, table, entries, p, q, out)
}
