// The rows of states, read and written by the places of their words, since the layout is the C interface; and an answer without the
// state that a refusal hands back.

ghost use Rattle.std.specs.Prelude.{◌≡◌, cond};
ghost use Rattle.exports.specs.Words.{no_count};
ghost use Rattle.exports_fit.specs.Row.{no_pmc, pmc_in, pmc_row, no_swing, swing_in, swing_row};
ghost use Rattle.models.specs.Answers.{stateless};
ghost use Rattle.models.specs.Calls.{said_by, said_on};

use exports::words;
use models::{ErrorBound, Refusal, Refused};
use pmc_mean::PMCMean;
use swing::Swing;

// ---- PMC-Mean

pub const PMC_WORDS: usize = 7;

// The length, or one that no state may have.
fn length_in(is: bool, word: u64) -> usize
    ensures { result ≡ cond is word no_count }
{
    if is { word as usize } else { words::NO_COUNT }
}

// The state that no call allows, with a bound to judge before it.
pub fn no_pmc(error_bound: ErrorBound) -> PMCMean
    ensures { result ≡ no_pmc error_bound }
{
    PMCMean {
        error_bound,
        min_value: 0.0,
        max_value: 0.0,
        sum_of_values: 0.0,
        length: words::NO_COUNT,
    }
}

#[tactic(auto, unfolding(crate::specs::Row::pmc_in))]
pub fn pmc_in(row: &[u64]) -> PMCMean
    ensures { result ≡ pmc_in row.now }
{
    let error_bound = words::bound_front(row);
    if row.len() < PMC_WORDS {
        return no_pmc(error_bound);
    }
    let is = words::is_small(row[2]) & words::is_small(row[3]);
    PMCMean {
        error_bound,
        min_value: numbers::value_of_f32(words::low(row[2])),
        max_value: numbers::value_of_f32(words::low(row[3])),
        sum_of_values: numbers::value_of_f64(row[4]),
        length: length_in(is, row[5]),
    }
}

#[tactic(auto, using(exports::proofs::Truth::truth_word), unfolding(crate::specs::Row::pmc_row))]
pub fn pmc_words(s: PMCMean, fits: bool) -> [u64; PMC_WORDS]
    ensures { result ≡ pmc_row s fits }
{
    let b = s.error_bound;
    [
        words::kind_of(b),
        words::bits_of(b),
        numbers::bits_of_f32(s.min_value) as u64,
        numbers::bits_of_f32(s.max_value) as u64,
        numbers::bits_of_f64(s.sum_of_values),
        s.length as u64,
        u64::from(fits),
    ]
}

// ---- Swing

pub const SWING_WORDS: usize = 13;

pub fn no_swing(error_bound: ErrorBound) -> Swing
    ensures { result ≡ no_swing error_bound }
{
    Swing {
        error_bound,
        start_time: 0,
        end_time: 0,
        first_value: 0.0,
        upper_bound_slope: 0.0,
        upper_bound_intercept: 0.0,
        lower_bound_slope: 0.0,
        lower_bound_intercept: 0.0,
        slope_with_minimum_mse_numerator: 0.0,
        slope_with_minimum_mse_denominator: 0.0,
        length: words::NO_COUNT,
    }
}

#[tactic(auto, unfolding(crate::specs::Row::swing_in))]
pub fn swing_in(row: &[u64]) -> Swing
    ensures { result ≡ swing_in row.now }
{
    let error_bound = words::bound_front(row);
    if row.len() < SWING_WORDS {
        return no_swing(error_bound);
    }
    Swing {
        error_bound,
        start_time: words::time_in(row[2]),
        end_time: words::time_in(row[3]),
        first_value: numbers::value_of_f64(row[4]),
        upper_bound_slope: numbers::value_of_f64(row[5]),
        upper_bound_intercept: numbers::value_of_f64(row[6]),
        lower_bound_slope: numbers::value_of_f64(row[7]),
        lower_bound_intercept: numbers::value_of_f64(row[8]),
        slope_with_minimum_mse_numerator: numbers::value_of_f64(row[9]),
        slope_with_minimum_mse_denominator: numbers::value_of_f64(row[10]),
        length: row[11] as usize,
    }
}

#[tactic(auto, using(exports::proofs::Truth::truth_word), unfolding(crate::specs::Row::swing_row))]
pub fn swing_words(s: Swing, fits: bool) -> [u64; SWING_WORDS]
    ensures { result ≡ swing_row s fits }
{
    let b = s.error_bound;
    [
        words::kind_of(b),
        words::bits_of(b),
        words::word_of_time(s.start_time),
        words::word_of_time(s.end_time),
        numbers::bits_of_f64(s.first_value),
        numbers::bits_of_f64(s.upper_bound_slope),
        numbers::bits_of_f64(s.upper_bound_intercept),
        numbers::bits_of_f64(s.lower_bound_slope),
        numbers::bits_of_f64(s.lower_bound_intercept),
        numbers::bits_of_f64(s.slope_with_minimum_mse_numerator),
        numbers::bits_of_f64(s.slope_with_minimum_mse_denominator),
        s.length as u64,
        u64::from(fits),
    ]
}

// ---- answers

// An answer without the state that a refusal hands back.
pub fn stateless<S: Copy, A: Copy>(answer: Result<A, Refused<S>>) -> Result<A, Refusal>
    ensures { said_by result ≡ stateless (said_on answer) }
{
    answer.map_err(|refused| refused.cause)
}
