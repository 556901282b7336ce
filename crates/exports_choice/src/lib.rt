// The C face of the choice. A builder crosses as a row of twenty words (specs/Row.antt): that of
// PMC-Mean and then that of Swing, each ending in a word that says whether the model has not failed.

#![tactic(auto)]

ghost use Rattle.std.specs.Prelude.{◌≡◌, cond, length};
ghost use Rattle.models.specs.Calls.{said_by};
ghost use Rattle.types.specs.Calls.{new_answer, update_answer, finish_answer};
ghost use Rattle.types.specs.Run.{choice_answer};
ghost use Rattle.exports.specs.Face.{bound_of, fault_said, row_after, step_fault, step_row, ask_fault, ask_row};
ghost use Rattle.exports_choice.specs.Row.{builder_length, builder_row, unusable, later_bound, no_builder, builder_in, builder_step, model_length, model_words};

use exports::words;
use exports_fit::rows;
use models::{ErrorBound, Fault, Refusal};
use pmc_mean::PMCMean;
use types::{ModelBuilder, SelectedModel, choice};

// ---- a builder's row, read by the places of its words: the layout is the C interface

const BUILDER_WORDS: usize = rows::PMC_WORDS + rows::SWING_WORDS;

// The last word of each model's row is its flag.
const PMC_FLAG: usize = rows::PMC_WORDS - 1;

const SWING_FLAG: usize = BUILDER_WORDS - 1;

// The state itself, or one that may not be used.
fn usable_if(is: bool, s: PMCMean) -> PMCMean
    ensures { result ≡ cond is s (unusable s) }
{
    if is {
        s
    } else {
        PMCMean {
            length: words::NO_COUNT,
            ..s
        }
    }
}

// The bound of the second model; Lossless, which is always allowed, where its words are not there.
#[tactic(auto, unfolding(exports::specs::Words::bound_front))]
fn later_bound(row: &[u64]) -> ErrorBound
    ensures { result ≡ later_bound row.now }
{
    words::bound_front(row.get(rows::PMC_WORDS..).unwrap_or_default())
}

// What a row that is too short stands for: a builder that no call allows.
fn no_builder(row: &[u64]) -> ModelBuilder
    ensures { result ≡ no_builder row.now }
{
    ModelBuilder {
        pmc_mean: rows::no_pmc(words::bound_front(row)),
        pmc_mean_could_fit_all: true,
        swing: rows::no_swing(later_bound(row)),
        swing_could_fit_all: true,
    }
}

#[tactic(auto, unfolding(crate::specs::Row::builder_in))]
fn builder_in(row: &[u64]) -> ModelBuilder
    ensures { result ≡ builder_in row.now }
{
    if row.len() < BUILDER_WORDS {
        return no_builder(row);
    }
    let flags = (row[PMC_FLAG] <= 1) & (row[SWING_FLAG] <= 1);
    ModelBuilder {
        pmc_mean: usable_if(flags, rows::pmc_in(row)),
        pmc_mean_could_fit_all: !flags | (row[PMC_FLAG] == 1),
        swing: rows::swing_in(&row[rows::PMC_WORDS..]),
        swing_could_fit_all: !flags | (row[SWING_FLAG] == 1),
    }
}

#[tactic(auto, unfolding(crate::specs::Row::builder_row))]
fn builder_words(b: ModelBuilder) -> [u64; BUILDER_WORDS]
    ensures { result ≡ builder_row b }
{
    let mut row = [0; BUILDER_WORDS];
    row[..rows::PMC_WORDS].copy_from_slice(&rows::pmc_words(b.pmc_mean, b.pmc_mean_could_fit_all));
    row[rows::PMC_WORDS..].copy_from_slice(&rows::swing_words(b.swing, b.swing_could_fit_all));
    row
}

// ---- the words of the chosen model, and the fault of the answer

const MODEL_WORDS: usize = 5;

#[tactic(auto, unfolding(exports::specs::Face::fault_said, exports::specs::Face::row_after, exports::specs::Inner::Put::front_after, crate::specs::Row::model_words))]
fn put_model(answer: Result<SelectedModel, Refusal>, out: &mut [u64]) -> Fault
    ensures fault { result ≡ fault_said model_length (length out.old) (said_by answer) }
    ensures row { out.new ≡ row_after model_length model_words out.old (said_by answer) }
{
    match answer {
        Err(r) => exports::fault_with(r, MODEL_WORDS, out.len()),
        Ok(m) => {
            let words = [
                u64::from(m.model_type_id),
                m.length as u64,
                u64::from(m.first_value),
                u64::from(m.last_value),
                u64::from(numbers::bits_of_f32(m.bytes_per_value)),
            ];
            exports::put_words(&words, out)
        }
    }
}

// ---- the calls

// The builder before any value into the row.
pub fn modelardb_model_builder_new(kind: u32, bound: u32, state: &mut [u64]) -> Fault
    ensures fault { result ≡ fault_said builder_length (length state.old) (new_answer (bound_of kind bound)) }
    ensures row { state.new ≡ row_after builder_length builder_row state.old (new_answer (bound_of kind bound)) }
{
    match ModelBuilder::new(exports::bound_of(kind, bound)) {
        Err(r) => exports::fault_with(r, BUILDER_WORDS, state.len()),
        Ok(b) => exports::put_words(&builder_words(b), state),
    }
}

// Tries one more point with each model that has not failed; the row becomes the builder after it. Some
// model stands for all points so far where one of its two flags is 1.
pub fn modelardb_model_builder_try_to_update_models(
    state: &mut [u64],
    timestamp: i64,
    value: u32,
) -> Fault
    ensures fault { result ≡ step_fault (update_answer (builder_in state.old) timestamp value) }
    ensures row { state.new ≡ step_row builder_step state.old (update_answer (builder_in state.old) timestamp value) }
{
    match builder_in(state).try_to_update_models(timestamp, value) {
        Err(refused) => exports::fault_with(refused.cause, BUILDER_WORDS, state.len()),
        Ok(step) => exports::put_words(&builder_words(step.state), state),
    }
}

// The model that needs fewer bytes for each value, with metadata of m bytes, into `out`.
pub fn modelardb_model_builder_finish(state: &[u64], m: usize, out: &mut [u64]) -> Fault
    ensures fault { result ≡ ask_fault model_length (length out.old) (finish_answer (builder_in state.now) m) }
    ensures row { out.new ≡ ask_row model_length model_words out.old (finish_answer (builder_in state.now) m) }
{
    put_model(rows::stateless(builder_in(state).finish(m)), out)
}

// Fits both models to the points from the first one on, each until it fails, and the chosen one into
// `out`.
pub fn modelardb_choose_model(
    timestamps: &[i64],
    values: &[u32],
    kind: u32,
    bound: u32,
    m: usize,
    out: &mut [u64],
) -> Fault
    ensures fault { result ≡ fault_said model_length (length out.old) (choice_answer timestamps.now values.now (bound_of kind bound) m) }
    ensures row { out.new ≡ row_after model_length model_words out.old (choice_answer timestamps.now values.now (bound_of kind bound) m) }
{
    let b = exports::bound_of(kind, bound);
    put_model(choice::choose_model(timestamps, values, b, m), out)
}
