// Swing's calls.

ghost use Rattle.std.specs.Prelude.{◌≡◌, length};
ghost use Rattle.models.specs.Answers.{verdict};
ghost use Rattle.lines.specs.Line.{point_of};
ghost use Rattle.swing.specs.Calls.{new_answer, fit_answer, cost_answer, model_answer};
ghost use Rattle.swing.specs.Grid.{average_answer, sum_answer, grid_causes, grid_memory};
ghost use Rattle.exports.specs.Face.{bound_of, fault_said, row_after, plain_fault, step_fault, step_row, ask_fault, ask_row, one_word, word_of32};
ghost use Rattle.exports_fit.specs.Row.{swing_length, swing_in, swing_fresh, swing_step_row, ends_row};

use crate::rows;
use models::Fault;
use swing::Swing;

// The state before any point into the row.
pub fn modelardb_swing_new(kind: u32, bound: u32, state: &mut [u64]) -> Fault
    ensures fault { result ≡ fault_said swing_length (length state.old) (new_answer (bound_of kind bound)) }
    ensures row { state.new ≡ row_after swing_length swing_fresh state.old (new_answer (bound_of kind bound)) }
{
    match Swing::new(exports::bound_of(kind, bound)) {
        Err(r) => exports::fault_with(r, rows::SWING_WORDS, state.len()),
        Ok(s) => exports::put_words(&rows::swing_words(s, false), state),
    }
}

// Tries one more point; the row becomes the state after it, its last word 1 where the point fitted.
pub fn modelardb_swing_fit_data_point(state: &mut [u64], timestamp: i64, value: u32) -> Fault
    ensures fault { result ≡ step_fault (fit_answer (swing_in state.old) timestamp value) }
    ensures row { state.new ≡ step_row swing_step_row state.old (fit_answer (swing_in state.old) timestamp value) }
{
    match rows::swing_in(state).fit_data_point(timestamp, value) {
        Err(refused) => exports::fault_with(refused.cause, rows::SWING_WORDS, state.len()),
        Ok(step) => exports::put_words(&rows::swing_words(step.state, step.fits), state),
    }
}

// The f32 pattern of the bytes for each value into out[0].
pub fn modelardb_swing_bytes_per_value(state: &[u64], m: usize, out: &mut [u32]) -> Fault
    ensures fault { result ≡ ask_fault 1 (length out.old) (cost_answer (swing_in state.now) m) }
    ensures row { out.new ≡ ask_row 1 word_of32 out.old (cost_answer (swing_in state.now) m) }
{
    let answer = rows::swing_in(state).bytes_per_value(m);
    exports::put_value(exports::pattern_in(rows::stateless(answer)), out)
}

// The patterns of the line's first and last value into out[0] and out[1].
pub fn modelardb_swing_model(state: &[u64], out: &mut [u32]) -> Fault
    ensures fault { result ≡ ask_fault 2 (length out.old) (model_answer (swing_in state.now)) }
    ensures row { out.new ≡ ask_row 2 ends_row out.old (model_answer (swing_in state.now)) }
{
    exports::put_ends(rows::stateless(rows::swing_in(state).model()), out)
}

// The pattern of the sum of `count` values, by the average of the line's ends, into out[0].
pub fn modelardb_swing_sum_by_average(
    start_time: i64,
    end_time: i64,
    first_value: u32,
    last_value: u32,
    count: usize,
    out: &mut [u32],
) -> Fault
    ensures fault { result ≡ fault_said 1 (length out.old) (average_answer (point_of start_time first_value) (point_of end_time last_value) count) }
    ensures row { out.new ≡ row_after 1 one_word out.old (average_answer (point_of start_time first_value) (point_of end_time last_value) count) }
{
    exports::put_value(
        swing::sum_by_average(start_time, end_time, first_value, last_value, count),
        out,
    )
}

// The pattern of the sum of the line's values at the timestamps into out[0].
pub fn modelardb_swing_sum_over(
    start_time: i64,
    end_time: i64,
    first_value: u32,
    last_value: u32,
    timestamps: &[i64],
    out: &mut [u32],
) -> Fault
    ensures fault { result ≡ fault_said 1 (length out.old) (sum_answer (point_of start_time first_value) (point_of end_time last_value) timestamps.now) }
    ensures row { out.new ≡ row_after 1 one_word out.old (sum_answer (point_of start_time first_value) (point_of end_time last_value) timestamps.now) }
{
    exports::put_value(
        swing::sum_over(start_time, end_time, first_value, last_value, timestamps),
        out,
    )
}

// The line's values at the timestamps to the front of `out`.
pub fn modelardb_swing_grid(
    start_time: i64,
    end_time: i64,
    first_value: u32,
    last_value: u32,
    timestamps: &[i64],
    out: &mut [u32],
) -> Fault
    ensures fault { result ≡ plain_fault (verdict (grid_causes (point_of start_time first_value) (point_of end_time last_value) timestamps.now (length out.old))) }
    ensures row { out.new ≡ grid_memory (point_of start_time first_value) (point_of end_time last_value) timestamps.now out.old }
{
    match swing::grid(
        start_time,
        end_time,
        first_value,
        last_value,
        timestamps,
        out,
    ) {
        Err(r) => Fault::from(r),
        Ok(()) => exports::ACCEPTED,
    }
}
