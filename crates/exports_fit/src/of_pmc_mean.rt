// PMC-Mean's calls.

ghost use Rattle.std.specs.Prelude.{◌≡◌, length};
ghost use Rattle.models.specs.Answers.{verdict};
ghost use Rattle.pmc_mean.specs.Calls.{new_answer, fit_answer, cost_answer, model_answer};
ghost use Rattle.pmc_mean.specs.Grid.{sum_answer, grid_causes, grid_memory};
ghost use Rattle.exports.specs.Face.{bound_of, fault_said, row_after, plain_fault, step_fault, step_row, ask_fault, ask_row, one_word, word_of32};
ghost use Rattle.exports_fit.specs.Row.{pmc_length, pmc_in, pmc_fresh, pmc_step_row};

use crate::rows;
use models::Fault;
use pmc_mean::PMCMean;

// The state before any value into the row.
pub fn modelardb_pmc_mean_new(kind: u32, bound: u32, state: &mut [u64]) -> Fault
    ensures fault { result ≡ fault_said pmc_length (length state.old) (new_answer (bound_of kind bound)) }
    ensures row { state.new ≡ row_after pmc_length pmc_fresh state.old (new_answer (bound_of kind bound)) }
{
    match PMCMean::new(exports::bound_of(kind, bound)) {
        Err(r) => exports::fault_with(r, rows::PMC_WORDS, state.len()),
        Ok(s) => exports::put_words(&rows::pmc_words(s, false), state),
    }
}

// Tries one more value; the row becomes the state after it, its last word 1 where the value fitted.
pub fn modelardb_pmc_mean_fit_value(state: &mut [u64], value: u32) -> Fault
    ensures fault { result ≡ step_fault (fit_answer (pmc_in state.old) value) }
    ensures row { state.new ≡ step_row pmc_step_row state.old (fit_answer (pmc_in state.old) value) }
{
    match rows::pmc_in(state).fit_value(value) {
        Err(refused) => exports::fault_with(refused.cause, rows::PMC_WORDS, state.len()),
        Ok(step) => exports::put_words(&rows::pmc_words(step.state, step.fits), state),
    }
}

// The f32 pattern of the bytes for each value into out[0].
pub fn modelardb_pmc_mean_bytes_per_value(state: &[u64], m: usize, out: &mut [u32]) -> Fault
    ensures fault { result ≡ ask_fault 1 (length out.old) (cost_answer (pmc_in state.now) m) }
    ensures row { out.new ≡ ask_row 1 word_of32 out.old (cost_answer (pmc_in state.now) m) }
{
    let answer = rows::pmc_in(state).bytes_per_value(m);
    exports::put_value(exports::pattern_in(rows::stateless(answer)), out)
}

// The average's pattern into out[0].
pub fn modelardb_pmc_mean_model(state: &[u64], out: &mut [u32]) -> Fault
    ensures fault { result ≡ ask_fault 1 (length out.old) (model_answer (pmc_in state.now)) }
    ensures row { out.new ≡ ask_row 1 one_word out.old (model_answer (pmc_in state.now)) }
{
    exports::put_value(rows::stateless(rows::pmc_in(state).model()), out)
}

// The pattern of the sum of `count` values into out[0].
pub fn modelardb_pmc_mean_sum(count: usize, value: u32, out: &mut [u32]) -> Fault
    ensures fault { result ≡ fault_said 1 (length out.old) (sum_answer count value) }
    ensures row { out.new ≡ row_after 1 one_word out.old (sum_answer count value) }
{
    exports::put_value(pmc_mean::sum(count, value), out)
}

// The value `count` times to the front of `out`.
pub fn modelardb_pmc_mean_grid(value: u32, count: usize, out: &mut [u32]) -> Fault
    ensures fault { result ≡ plain_fault (verdict (grid_causes count (length out.old))) }
    ensures row { out.new ≡ grid_memory value count out.old }
{
    match pmc_mean::grid(value, count, out) {
        Err(r) => Fault::from(r),
        Ok(()) => exports::ACCEPTED,
    }
}
