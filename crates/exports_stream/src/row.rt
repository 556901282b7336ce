// A writer's state as a row of eleven words (specs/Row.antt): to the row, and back. A row that stands for no
// state stands for one that the call behind refuses.
ghost use Rattle.std.specs.Prelude.{◌≡◌, true, [], ◌∷◌, ◌≤◌, ltb, length};
ghost use Rattle.models.specs.Answers.{◌when◌, verdict};
ghost use Rattle.models.specs.Calls.{said_by};
ghost use Rattle.exports_stream.specs.Row.{writer_length, state_words, writer_row, sum_after, written_row, stands_for_state, read_writer, writer_in};

use exports::words;
use macaque_v::MacaqueV;
use models::{ErrorBound, Refusal};

pub const WORDS: usize = 11;

// Whether a row of so many words holds a state.
#[tactic(auto, unfolding(models::specs::Answers::judge))]
pub fn judge_row(words: usize) -> Result<(), Refusal>
    ensures { said_by result ≡ verdict (4 when ltb words writer_length ∷ []) }
{
    if words < WORDS {
        return Err(Refusal::OutputTooShort);
    }
    Ok(())
}

// ---- to the row

// A state's words, with those of the bound, of the mode and of the sum as they are given.
fn state_words(kind: u64, bits: u64, mode: u64, sum: u64, m: MacaqueV) -> [u64; WORDS]
    ensures { result ≡ state_words kind bits mode sum m }
{
    [
        kind,
        bits,
        m.min_value as u64,
        m.max_value as u64,
        m.last_value as u64,
        m.last_leading_zero_bits as u64,
        m.last_trailing_zero_bits as u64,
        mode,
        m.place as u64,
        m.length as u64,
        sum,
    ]
}

// Of a state that is handed out.
#[tactic(auto, using(exports::proofs::Truth::truth_word), unfolding(crate::specs::Row::writer_row))]
pub fn writer_words(m: MacaqueV) -> [u64; WORDS]
    ensures { result ≡ writer_row m }
{
    let b = m.error_bound;
    let mode = u64::from(m.with_first);
    let sum = numbers::bits_of_f32(m.sum) as u64;
    state_words(words::kind_of(b), words::bits_of(b), mode, sum, m)
}

// Of the state after a write: the bound and the mode stay as they stand in the row.
#[tactic(auto, unfolding(crate::specs::Row::written_row))]
pub fn written_words(row: &[u64], m: MacaqueV) -> [u64; WORDS]
    requires { writer_length ≤ length row.now }
    ensures { result ≡ written_row row.now m }
{
    state_words(row[0], row[1], row[7], sum_after(row, m), m)
}

// The sum's word after a write: where no value came it stays as it stands in the row.
fn sum_after(row: &[u64], m: MacaqueV) -> u64
    requires { writer_length ≤ length row.now }
    ensures { result ≡ sum_after row.now m }
{
    if (m.length as u64) == row[9] {
        return row[10];
    }
    numbers::bits_of_f32(m.sum) as u64
}

// ---- from the row

// A row that is too short stands for no state.
#[tactic(auto, unfolding(crate::specs::Row::stands_for_state))]
fn stands_for_state(row: &[u64]) -> bool
    ensures { result ≡ stands_for_state row.now }
{
    (WORDS <= row.len())
        && words::is_small(row[2])
        && words::is_small(row[3])
        && words::is_small(row[4])
        && words::is_small(row[5])
        && words::is_small(row[6])
        && (row[7] <= 1)
        && words::is_small(row[10])
}

// The state in a row that stands for one.
fn read_writer(error_bound: ErrorBound, row: &[u64]) -> MacaqueV
    requires words { writer_length ≤ length row.now }
    requires stands { stands_for_state row.now ≡ true }
    ensures { result ≡ read_writer error_bound row.now }
{
    MacaqueV {
        error_bound,
        min_value: words::low(row[2]),
        max_value: words::low(row[3]),
        last_value: words::low(row[4]),
        last_leading_zero_bits: words::low(row[5]),
        last_trailing_zero_bits: words::low(row[6]),
        with_first: row[7] == 1,
        place: row[8] as usize,
        length: row[9] as usize,
        sum: numbers::value_of_f32(words::low(row[10])),
    }
}

// The state that a row stands for.
#[tactic(auto, using(crate::proofs::Words::has_words), unfolding(crate::specs::Row::writer_in))]
pub fn writer_of(row: &[u64]) -> MacaqueV
    ensures { result ≡ writer_in row.now }
{
    let error_bound = words::bound_front(row);
    if stands_for_state(row) {
        return read_writer(error_bound, row);
    }
    MacaqueV {
        error_bound,
        min_value: models::FRESH_BITS,
        max_value: models::FRESH_BITS,
        last_value: 0,
        last_leading_zero_bits: MacaqueV::OPENING_LEADING,
        last_trailing_zero_bits: MacaqueV::OPENING_TRAILING,
        with_first: false,
        place: 1,
        length: 0,
        sum: 0.0,
    }
}
