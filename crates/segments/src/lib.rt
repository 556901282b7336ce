// Segments: a model's parameter bytes, and residuals as a stream that opens on the model's last value.
#![tactic(auto)]

ghost use Rattle.std.specs.Prelude.{◌≡◌, ◌*◌, ◌≤◌, length, take};
ghost use Rattle.models.specs.Calls.{said_by};
ghost use Rattle.segments.specs.Segment.{last_of, model_min, model_max, form_of, counted_bytes, most_residuals};
ghost use Rattle.segments.specs.Calls.{front, handed_answer, handed_values, handed_residuals, write_answer, values_after, residuals_after};
ghost use Rattle.segments.specs.Inner.Aside.{stored_by, counted_length};

use macaque_v::{MacaqueV, Opening};
use models::{ErrorBound, Refusal};
use parameters::Form;

// What a finished segment is besides its bytes.
#[derive(Clone, Copy)]
pub struct Segment {
    // Its least and its greatest value.
    pub min_value: u32,
    pub max_value: u32,
    // How many bytes each output took.
    pub values_length: usize,
    pub residuals_length: usize,
}

// Writes a segment's parameter bytes and residual bytes. Model 0 is PMC-Mean, whose last value is not
// looked at, and 1 is Swing. The residuals' stream is made aside, so that both outputs are judged
// before either is touched.
#[tactic(auto, unfolding(crate::specs::Calls::write_answer, crate::specs::Calls::values_after, crate::specs::Calls::residuals_after, macaque_v::specs::Calls::new_answer, models::specs::Answers::judge))]
pub fn write(
    model: u32,
    first_value: u32,
    last_value: u32,
    error_bound: ErrorBound,
    residuals: &[u32],
    values_out: &mut [u8],
    residuals_out: &mut [u8],
) -> Result<Segment, Refusal>
    ensures answer { said_by result ≡ write_answer model first_value last_value error_bound residuals.now values_out.old residuals_out.old }
    ensures values { values_out.new ≡ values_after model first_value last_value error_bound residuals.now values_out.old residuals_out.old }
    ensures bytes { residuals_out.new ≡ residuals_after model first_value last_value error_bound residuals.now values_out.old residuals_out.old }
{
    let m = Model {
        id: model,
        first: first_value,
        last: last_value,
    };
    let writer = MacaqueV::new(error_bound, Opening::On(m.last_value()))?;
    if 1 < model || MacaqueV::MOST_RESIDUALS < residuals.len() {
        return Err(Refusal::OverLimit);
    }
    let mut stream = [0u8; 1403];
    match writer.compress_values(residuals, &mut stream) {
        Err(e) => Err(e.cause),
        Ok(after) => hand_out(m, after, &stream, values_out, residuals_out),
    }
}

// The parameter bytes, and the bytes in use of a stream with their count, to the front of the outputs.
#[tactic(auto, using(crate::proofs::Laws::length_counted), unfolding(crate::specs::Inner::Aside::stored_by, crate::specs::Calls::handed_answer, crate::specs::Calls::handed_values, crate::specs::Calls::handed_residuals, models::specs::Answers::judge, models::specs::Floats::min_bits, models::specs::Floats::max_bits))]
fn hand_out(
    m: Model,
    after: MacaqueV,
    stream: &[u8],
    values_out: &mut [u8],
    residuals_out: &mut [u8],
) -> Result<Segment, Refusal>
    requires in_stream { after.place ≤ 8 * length stream.now }
    requires few { after.length ≤ most_residuals }
    requires short { length stream.now ≤ 1403 }
    ensures answer { said_by result ≡ handed_answer (stored_by m.id m.first m.last after stream.now) values_out.old residuals_out.old }
    ensures values { values_out.new ≡ handed_values (stored_by m.id m.first m.last after stream.now) values_out.old residuals_out.old }
    ensures bytes { residuals_out.new ≡ handed_residuals (stored_by m.id m.first m.last after stream.now) values_out.old residuals_out.old }
{
    let form = m.form(after.min_value, after.max_value);
    let count = after.length;
    let used = (after.place + 7) / 8;
    let values_length = parameters::length_of(form);
    let residuals_length = counted_length(used, count);
    if values_out.len() < values_length || residuals_out.len() < residuals_length {
        return Err(Refusal::OutputTooShort);
    }
    parameters::put(form, values_out);
    put_counted(stream, used, count, residuals_out);
    Ok(Segment {
        min_value: models::lesser(m.min_value(), after.min_value),
        max_value: models::greater(m.max_value(), after.max_value),
        values_length,
        residuals_length,
    })
}

// ---- the model's own

// A model as it is handed in, 0 for PMC-Mean and 1 for Swing: any other number is refused behind it.
#[derive(Clone, Copy)]
struct Model {
    id: u32,
    first: u32,
    last: u32,
}

impl Model {
    #[tactic(auto, unfolding(crate::specs::Segment::last_of))]
    fn last_value(self) -> u32
        ensures { result ≡ last_of self.id self.first self.last }
    {
        if self.id == 0 {
            models::plain(self.first)
        } else {
            models::plain(self.last)
        }
    }

    #[tactic(auto, unfolding(models::specs::Floats::min_bits))]
    fn min_value(self) -> u32
        ensures { result ≡ model_min self.id self.first self.last }
    {
        let first = models::plain(self.first);
        if self.id == 0 {
            first
        } else {
            models::lesser(first, models::plain(self.last))
        }
    }

    #[tactic(auto, unfolding(models::specs::Floats::max_bits))]
    fn max_value(self) -> u32
        ensures { result ≡ model_max self.id self.first self.last }
    {
        let first = models::plain(self.first);
        if self.id == 0 {
            first
        } else {
            models::greater(first, models::plain(self.last))
        }
    }

    // What it stores, where the residuals' least and greatest value are `low` and `high`.
    #[tactic(auto, unfolding(crate::specs::Segment::form_of))]
    fn form(self, low: u32, high: u32) -> Form
        ensures { result ≡ form_of self.id self.first self.last low high }
    {
        if self.id == 0 {
            parameters::form_for_pmc_mean(self.first, low, high)
        } else {
            parameters::form_for_swing(self.first, self.last, low, high)
        }
    }
}

// ---- a stream's bytes and their count

// How many there are: none where there are no residuals.
fn counted_length(used: usize, count: usize) -> usize
    requires { used ≤ 1403 }
    ensures { result ≡ counted_length used count }
{
    if count == 0 { 0 } else { used + 1 }
}

#[tactic(auto, unfolding(crate::specs::Segment::counted_bytes))]
fn put_counted(stream: &[u8], used: usize, count: usize, out: &mut [u8])
    requires in_stream { used ≤ length stream.now }
    requires short { used ≤ 1403 }
    requires few { count ≤ most_residuals }
    requires room { counted_length used count ≤ length out.old }
    ensures { out.new ≡ front (counted_bytes (take used stream.now) count) out.old }
{
    if count == 0 {
        return;
    }
    out[..used].copy_from_slice(&stream[..used]);
    out[used] = count as u8;
}
