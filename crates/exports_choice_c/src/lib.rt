// The C face of the choice, as a static library: each call is that of crates/exports_choice, with its clauses.

#![tactic(auto)]

ghost use Rattle.std.specs.Prelude.{◌≡◌, length};
ghost use Rattle.types.specs.Calls.{new_answer, update_answer, finish_answer};
ghost use Rattle.types.specs.Run.{choice_answer};
ghost use Rattle.exports.specs.Face.{bound_of, fault_said, row_after, step_fault, step_row, ask_fault, ask_row};
ghost use Rattle.exports_choice.specs.Row.{builder_length, builder_row, builder_in, builder_step, model_length, model_words};

use models::Fault;

// The builder before any value into the row.
#[unsafe(no_mangle)]
pub extern "C" fn modelardb_model_builder_new(kind: u32, bound: u32, state: &mut [u64]) -> Fault
    ensures fault { result ≡ fault_said builder_length (length state.old) (new_answer (bound_of kind bound)) }
    ensures row { state.new ≡ row_after builder_length builder_row state.old (new_answer (bound_of kind bound)) }
{
    exports_choice::modelardb_model_builder_new(kind, bound, state)
}

// Tries one more point with each model that has not failed; the row becomes the builder after it. Some
// model stands for all points so far where one of its two flags is 1.
#[unsafe(no_mangle)]
pub extern "C" fn modelardb_model_builder_try_to_update_models(
    state: &mut [u64],
    timestamp: i64,
    value: u32,
) -> Fault
    ensures fault { result ≡ step_fault (update_answer (builder_in state.old) timestamp value) }
    ensures row { state.new ≡ step_row builder_step state.old (update_answer (builder_in state.old) timestamp value) }
{
    exports_choice::modelardb_model_builder_try_to_update_models(state, timestamp, value)
}

// The model that needs fewer bytes for each value, with metadata of m bytes, into `out`.
#[unsafe(no_mangle)]
pub extern "C" fn modelardb_model_builder_finish(state: &[u64], m: usize, out: &mut [u64]) -> Fault
    ensures fault { result ≡ ask_fault model_length (length out.old) (finish_answer (builder_in state.now) m) }
    ensures row { out.new ≡ ask_row model_length model_words out.old (finish_answer (builder_in state.now) m) }
{
    exports_choice::modelardb_model_builder_finish(state, m, out)
}

// Fits both models to the points from the first one on, each until it fails, and the chosen one into
// `out`.
#[unsafe(no_mangle)]
pub extern "C" fn modelardb_choose_model(
    timestamps: &[i64],
    values: &[u32],
    kind: u32,
    bound: u32,
    m: usize,
    out: &mut [u64],
) -> Fault
    ensures fault { result ≡ fault_said model_length (length out.old) (choice_answer timestamps.now values.now (bound_of kind bound) m) }
    ensures row { out.new ≡ row_after model_length model_words out.old (choice_answer timestamps.now values.now (bound_of kind bound) m) }
{
    exports_choice::modelardb_choose_model(timestamps, values, kind, bound, m, out)
}
