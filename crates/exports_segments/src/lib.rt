// The C face of parameter bytes and segments. A call answers a fault, of number 0 where nothing is refused, and a
// refusal changes nothing that was lent. What it answers besides goes to the front of a lent row.
#![tactic(auto)]

ghost use Rattle.std.specs.Prelude.{◌≡◌, length};
ghost use Rattle.models.specs.Answers.{verdict};
ghost use Rattle.models.specs.Calls.{said_by};
ghost use Rattle.parameters.specs.Forms.{pmc_mean_form, swing_form, swing_from, pmc_mean_from};
ghost use Rattle.segment_grid.specs.Segment.{by_average, over_times};
ghost use Rattle.exports.specs.Face.{bound_of, fault_said, row_after, one_word};
ghost use Rattle.exports_segments.specs.Calls.{ends_words, encode_fault, encode_out, encode_row};
ghost use Rattle.exports_segments.specs.Calls.{segment_causes, segment_fault, segment_values_out, segment_residuals_out, segment_row};
ghost use Rattle.exports_segments.specs.Calls.{grid_fault, grid_out, sum_fault, sum_out};

use macaque_v::MacaqueV;
use models::{ErrorBound, Fault, Refusal};

mod rows;

// ---- parameter bytes

// PMC-Mean's parameter bytes to the front of `out`, and how many they are into row[0]. The residuals'
// least and greatest value are 7FC00000 where there are none.
#[tactic(auto, unfolding(crate::specs::Calls::encode_fault, crate::specs::Calls::encode_out, crate::specs::Calls::encode_row, models::specs::Answers::judge))]
pub fn modelardb_encode_values_for_pmc_mean(
    value: u32,
    residuals_min_value: u32,
    residuals_max_value: u32,
    out: &mut [u8],
    row: &mut [u64],
) -> Fault
    ensures fault { result ≡ encode_fault (pmc_mean_form value residuals_min_value residuals_max_value) out.old row.old }
    ensures bytes { out.new ≡ encode_out (pmc_mean_form value residuals_min_value residuals_max_value) out.old row.old }
    ensures row { row.new ≡ encode_row (pmc_mean_form value residuals_min_value residuals_max_value) out.old row.old }
{
    if row.is_empty() {
        return exports::TOO_SHORT;
    }
    let answer = parameters::encode_values_for_pmc_mean(
        value,
        residuals_min_value,
        residuals_max_value,
        out,
    );
    rows::put_length(answer, row)
}

// The same of Swing.
#[tactic(auto, unfolding(crate::specs::Calls::encode_fault, crate::specs::Calls::encode_out, crate::specs::Calls::encode_row, models::specs::Answers::judge))]
pub fn modelardb_encode_values_for_swing(
    first_value: u32,
    last_value: u32,
    residuals_min_value: u32,
    residuals_max_value: u32,
    out: &mut [u8],
    row: &mut [u64],
) -> Fault
    ensures fault { result ≡ encode_fault (swing_form first_value last_value residuals_min_value residuals_max_value) out.old row.old }
    ensures bytes { out.new ≡ encode_out (swing_form first_value last_value residuals_min_value residuals_max_value) out.old row.old }
    ensures row { row.new ≡ encode_row (swing_form first_value last_value residuals_min_value residuals_max_value) out.old row.old }
{
    if row.is_empty() {
        return exports::TOO_SHORT;
    }
    let answer = parameters::encode_values_for_swing(
        first_value,
        last_value,
        residuals_min_value,
        residuals_max_value,
        out,
    );
    rows::put_length(answer, row)
}

// The value that PMC-Mean's parameter bytes give, read against a segment's least and greatest value, into
// out[0].
pub fn modelardb_decode_values_for_pmc_mean(
    min_value: u32,
    max_value: u32,
    values: &[u8],
    out: &mut [u32],
) -> Fault
    ensures fault { result ≡ fault_said 1 (length out.old) (pmc_mean_from min_value max_value values.now) }
    ensures row { out.new ≡ row_after 1 one_word out.old (pmc_mean_from min_value max_value values.now) }
{
    let answer = parameters::decode_values_for_pmc_mean(min_value, max_value, values);
    exports::put_value(answer, out)
}

// The first and the last value that Swing's parameter bytes give into out[0] and out[1].
pub fn modelardb_decode_values_for_swing(
    min_value: u32,
    max_value: u32,
    values: &[u8],
    out: &mut [u32],
) -> Fault
    ensures fault { result ≡ fault_said 2 (length out.old) (swing_from min_value max_value values.now) }
    ensures row { out.new ≡ row_after 2 ends_words out.old (swing_from min_value max_value values.now) }
{
    let answer = parameters::decode_values_for_swing(min_value, max_value, values);
    exports::put_ends(answer, out)
}

// ---- writing a segment

// A segment's parameter bytes and residual bytes to the front of the two outputs; into the row its least
// and its greatest value, and how many bytes each output took. Model 0 is PMC-Mean, whose last value is
// not looked at, and 1 is Swing.
#[tactic(auto, unfolding(crate::specs::Calls::segment_fault, crate::specs::Calls::segment_values_out, crate::specs::Calls::segment_residuals_out, crate::specs::Calls::segment_row, models::specs::Answers::judge))]
pub fn modelardb_segment_write(
    model: u32,
    first_value: u32,
    last_value: u32,
    kind: u32,
    bound: u32,
    residuals: &[u32],
    values_out: &mut [u8],
    residuals_out: &mut [u8],
    segment: &mut [u64],
) -> Fault
    ensures fault { result ≡ segment_fault model first_value last_value (bound_of kind bound) residuals.now values_out.old residuals_out.old segment.old }
    ensures values { values_out.new ≡ segment_values_out model first_value last_value (bound_of kind bound) residuals.now values_out.old residuals_out.old segment.old }
    ensures bytes { residuals_out.new ≡ segment_residuals_out model first_value last_value (bound_of kind bound) residuals.now values_out.old residuals_out.old segment.old }
    ensures row { segment.new ≡ segment_row model first_value last_value (bound_of kind bound) residuals.now values_out.old residuals_out.old segment.old }
{
    let b = exports::bound_of(kind, bound);
    match judge_write(model, b, residuals, segment.len()) {
        Err(r) => Fault::from(r),
        Ok(()) => {
            let answer = segments::write(
                model,
                first_value,
                last_value,
                b,
                residuals,
                values_out,
                residuals_out,
            );
            rows::put_segment(answer, segment)
        }
    }
}

// What is judged before any of the three outputs is touched.
#[tactic(auto, unfolding(models::specs::Answers::judge))]
fn judge_write(
    model: u32,
    error_bound: ErrorBound,
    residuals: &[u32],
    room: usize,
) -> Result<(), Refusal>
    ensures { said_by result ≡ verdict (segment_causes model error_bound residuals.now room) }
{
    if !models::bound_allowed(error_bound) {
        return Err(Refusal::BoundNotAllowed);
    }
    if 1 < model || MacaqueV::MOST_RESIDUALS < residuals.len() {
        return Err(Refusal::OverLimit);
    }
    if room < rows::SEGMENT_WORDS {
        return Err(Refusal::OutputTooShort);
    }
    Ok(())
}

// ---- reading a segment: its model, all its timestamps, its least and its greatest value, its parameter
// bytes, and its residual bytes

// All its values to the front of `out`.
#[tactic(auto, unfolding(crate::specs::Calls::grid_fault, crate::specs::Calls::grid_out))]
pub fn modelardb_segment_grid(
    model: u32,
    timestamps: &[i64],
    min_value: u32,
    max_value: u32,
    values: &[u8],
    residuals: &[u8],
    out: &mut [u32],
) -> Fault
    ensures fault { result ≡ grid_fault model timestamps.now min_value max_value values.now residuals.now out.old }
    ensures values { out.new ≡ grid_out model timestamps.now min_value max_value values.now residuals.now out.old }
{
    match segment_grid::grid(
        model, timestamps, min_value, max_value, values, residuals, out,
    ) {
        Err(r) => Fault::from(r),
        Ok(()) => exports::ACCEPTED,
    }
}

// The sum of all its values into out[0], the model's by the average of its ends.
#[tactic(auto, unfolding(crate::specs::Calls::sum_fault, crate::specs::Calls::sum_out))]
pub fn modelardb_segment_sum_by_average(
    model: u32,
    timestamps: &[i64],
    min_value: u32,
    max_value: u32,
    values: &[u8],
    residuals: &[u8],
    out: &mut [u32],
) -> Fault
    ensures fault { result ≡ sum_fault by_average model timestamps.now min_value max_value values.now residuals.now out.old }
    ensures row { out.new ≡ sum_out by_average model timestamps.now min_value max_value values.now residuals.now out.old }
{
    let answer = segment_grid::sum_by_average(
        model, timestamps, min_value, max_value, values, residuals,
    );
    exports::put_value(answer, out)
}

// The sum of all its values into out[0], the model's over its timestamps.
#[tactic(auto, unfolding(crate::specs::Calls::sum_fault, crate::specs::Calls::sum_out))]
pub fn modelardb_segment_sum_over(
    model: u32,
    timestamps: &[i64],
    min_value: u32,
    max_value: u32,
    values: &[u8],
    residuals: &[u8],
    out: &mut [u32],
) -> Fault
    ensures fault { result ≡ sum_fault over_times model timestamps.now min_value max_value values.now residuals.now out.old }
    ensures row { out.new ≡ sum_out over_times model timestamps.now min_value max_value values.now residuals.now out.old }
{
    let answer = segment_grid::sum_over(model, timestamps, min_value, max_value, values, residuals);
    exports::put_value(answer, out)
}
