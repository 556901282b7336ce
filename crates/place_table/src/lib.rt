// The place table beside a stream: for each value whose number is a multiple of 64 the bit place, the last kept value and the
// window before it, so that a range of values is read from the entry at or before it and not from the start.
// A table is lent as words, four to an entry, with the number of entries in use handed in and answered, and a stream as its bytes, its count and how it
// opens: lent memory of fixed length, as the C interface hands it on, and no list that grows.
#![tactic(auto)]

ghost use Rattle.std.specs.Prelude.{◌≡◌, ◌≤◌, ◌^◌, length};
ghost use Rattle.models.specs.Answers.{verdict};
ghost use Rattle.models.specs.Calls.{said_by};
ghost use Rattle.places.specs.Calls.{table_causes, check_causes};
ghost use Rattle.place_table.specs.Calls.{table_write_causes, says_table_write, table_write_answer, table_write_memory, table_write_table};
ghost use Rattle.place_table.specs.Calls.{table_reopen_causes, says_table_open, table_reopen_answer, table_reopen_memory};
ghost use Rattle.place_table.specs.Calls.{table_rescue_causes, table_rescue_answer, table_rescue_memory, table_rescue_table};
ghost use Rattle.place_table.specs.Calls.{check_answer, range_causes, range_answer, range_memory};

use macaque_v::read_run::Source;
use macaque_v::{MacaqueV, Opening, noting, read, write};
use models::{ErrorBound, Refusal, Refused};

pub mod entry;
pub mod walk;

// ---- the public calls

// Writes the values behind the place, and behind the entries in use that of each value whose number is a multiple of 64: the state after the
// values and the entries in use. A refusal leaves the buffer and the table, and hands back the state passed in.
#[tactic(auto, unfolding(models::specs::Answers::judge, crate::specs::Calls::table_write_answer, crate::specs::Calls::table_write_memory, crate::specs::Calls::table_write_table))]
pub fn compress_values(
    writer: MacaqueV,
    values: &[u32],
    buffer: &mut [u8],
    table: &mut [u64],
    entries: usize,
) -> Result<(MacaqueV, usize), Refused<MacaqueV>>
    ensures answer { says_table_write result ≡ table_write_answer writer values.now buffer.old table.old entries }
    ensures bytes { buffer.new ≡ table_write_memory writer values.now buffer.old table.old entries }
    ensures words { table.new ≡ table_write_table writer values.now buffer.old table.old entries }
{
    let bytes = write::lent_bytes(buffer.len());
    match judge_write(writer, values, bytes, table.len(), entries) {
        Err(cause) => Err(Refused {
            cause,
            state: writer,
        }),
        Ok(()) => {
            let after = writer.write_noting(values, buffer, true, table, true);
            Ok((after, entry::entries_for(after.length)))
        }
    }
}

// The writer behind the first k of the `count` values in the buffer's first `used` bytes, and how many entries of their table are of these.
#[tactic(auto, unfolding(models::specs::Answers::judge, crate::specs::Calls::table_reopen_answer, crate::specs::Calls::table_reopen_memory))]
pub fn reopen(
    buffer: &mut [u8],
    used: usize,
    count: usize,
    k: usize,
    opening: Opening,
    error_bound: ErrorBound,
    table: &[u64],
    entries: usize,
) -> Result<(MacaqueV, usize), Refusal>
    ensures answer { says_table_open result ≡ table_reopen_answer buffer.old used count k opening error_bound (length table.now) entries }
    ensures bytes { buffer.new ≡ table_reopen_memory buffer.old used count k opening error_bound (length table.now) entries }
{
    judge_reopen(
        error_bound,
        buffer.len(),
        used,
        count,
        k,
        table.len(),
        entries,
    )?;
    let opened = MacaqueV::reopen(buffer, used, count, k, opening, error_bound)?;
    Ok((opened, entry::entries_for(opened.length)))
}

// The writer behind the values that arrived whole, as `MacaqueV::rescue` opens it, and their table: it is made anew in the lent words, whatever these held.
// There has to be room for the entries of as many values as the limit.
#[tactic(auto, unfolding(models::specs::Answers::judge, crate::specs::Calls::table_rescue_answer, crate::specs::Calls::table_rescue_memory, crate::specs::Calls::table_rescue_table))]
pub fn rescue(
    buffer: &mut [u8],
    used: usize,
    limit: usize,
    opening: Opening,
    error_bound: ErrorBound,
    table: &mut [u64],
) -> Result<(MacaqueV, usize), Refusal>
    ensures answer { says_table_open result ≡ table_rescue_answer buffer.old used limit opening error_bound (length table.old) }
    ensures bytes { buffer.new ≡ table_rescue_memory buffer.old used limit opening error_bound (length table.old) }
    ensures words { table.new ≡ table_rescue_table buffer.old used limit opening error_bound table.old }
{
    judge_rescue(error_bound, buffer.len(), used, limit, table.len())?;
    let found = macaque_v::rescue::arrived(&buffer[..used], limit, opening);
    walk::note_found(&buffer[..used], found, opening, table);
    let kept = read::open_behind(buffer, found, opening, error_bound)?;
    Ok((kept, entry::entries_for(kept.length)))
}

// Whether the entries in use are those of the stream, `count` values in these bytes: it is gone through once.
#[tactic(auto, unfolding(models::specs::Answers::judge, crate::specs::Calls::check_answer))]
pub fn check(
    bytes: &[u8],
    count: usize,
    opening: Opening,
    table: &[u64],
    entries: usize,
) -> Result<(), Refusal>
    ensures { said_by result ≡ check_answer bytes.now count opening table.now entries }
{
    judge_check(count, table.len(), entries)?;
    walk::compare(bytes, count, opening, table)
}

// The values p to q - 1 of a stream of `count`, into the first places of `out`: read from the entry at or before p on, and no further than q.
pub fn range(
    bytes: &[u8],
    count: usize,
    opening: Opening,
    table: &[u64],
    entries: usize,
    p: usize,
    q: usize,
    out: &mut [u32],
) -> Result<(), Refusal>
    ensures answer { said_by result ≡ range_answer bytes.now count opening table.now entries p q (length out.old) }
    ensures values { out.new ≡ range_memory bytes.now count opening table.now entries p q out.old }
{
    judge_range(bytes.len(), count, table, entries, p, q, out.len())?;
    if q <= p {
        return Ok(());
    }
    let from = Source {
        bytes,
        first: read::is_first(opening),
        at: entry::cursor_at(table, p / noting::SPACING),
    };
    walk::draw_behind(from, p % noting::SPACING, q - p, out)
}

// ---- the causes of refusal

// The number of entries in use: no more than are lent, and as many as the count asks for.
#[tactic(auto, unfolding(models::specs::Answers::judge))]
fn judge_table(words: usize, entries: usize, count: usize) -> Result<(), Refusal>
    ensures { said_by result ≡ verdict (table_causes words entries count) }
{
    if words / noting::WORDS < entries {
        return Err(Refusal::CountsDisagree);
    }
    if entries != entry::entries_for(count) {
        return Err(Refusal::TableDoesNotMatch);
    }
    Ok(())
}

// The bits are counted only where nothing else refuses.
#[tactic(auto, unfolding(models::specs::Answers::judge))]
fn judge_write(
    writer: MacaqueV,
    values: &[u32],
    bytes: usize,
    words: usize,
    entries: usize,
) -> Result<(), Refusal>
    requires { bytes ≤ 2 ^ 60 }
    ensures { said_by result ≡ verdict (table_write_causes writer values.now bytes words entries) }
{
    writer.judge_start(values.len(), bytes)?;
    judge_table(words, entries, writer.length)?;
    let asked = entry::entries_for(writer.length + values.len());
    let fits = writer.has_room(values, bytes);
    if (words / noting::WORDS < asked) | !fits {
        return Err(Refusal::OutputTooShort);
    }
    Ok(())
}

#[tactic(auto, unfolding(models::specs::Answers::judge))]
pub fn judge_reopen(
    error_bound: ErrorBound,
    room: usize,
    used: usize,
    count: usize,
    k: usize,
    words: usize,
    entries: usize,
) -> Result<(), Refusal>
    ensures { said_by result ≡ verdict (table_reopen_causes error_bound room used count k words entries) }
{
    read::judge_reopen(error_bound, room, used, count, k)?;
    judge_table(words, entries, count)
}

#[tactic(auto, unfolding(models::specs::Answers::judge))]
pub fn judge_rescue(
    error_bound: ErrorBound,
    room: usize,
    used: usize,
    limit: usize,
    words: usize,
) -> Result<(), Refusal>
    ensures { said_by result ≡ verdict (table_rescue_causes error_bound room used limit words) }
{
    macaque_v::rescue::judge_rescue(error_bound, room, used, limit)?;
    if words / noting::WORDS < entry::entries_for(limit) {
        return Err(Refusal::OutputTooShort);
    }
    Ok(())
}

#[tactic(auto, unfolding(models::specs::Answers::judge))]
fn judge_check(count: usize, words: usize, entries: usize) -> Result<(), Refusal>
    ensures { said_by result ≡ verdict (check_causes count words entries) }
{
    if MacaqueV::MOST_VALUES < count {
        return Err(Refusal::OverLimit);
    }
    judge_table(words, entries, count)
}

// The entry is looked at only where the numbers go together.
#[tactic(auto, unfolding(models::specs::Answers::judge))]
fn judge_range(
    bytes: usize,
    count: usize,
    table: &[u64],
    entries: usize,
    p: usize,
    q: usize,
    room: usize,
) -> Result<(), Refusal>
    ensures { said_by result ≡ verdict (range_causes bytes count table.now entries p q room) }
{
    if MacaqueV::MOST_VALUES < count {
        return Err(Refusal::OverLimit);
    }
    if (q < p) | (count < q) {
        return Err(Refusal::CountsDisagree);
    }
    if q <= p {
        return Ok(());
    }
    if table.len() / noting::WORDS < entries {
        return Err(Refusal::CountsDisagree);
    }
    if !entry::may_start(bytes, table, entries, p / noting::SPACING) {
        return Err(Refusal::TableDoesNotMatch);
    }
    if room < q - p {
        return Err(Refusal::OutputTooShort);
    }
    Ok(())
}
