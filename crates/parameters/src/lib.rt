// Parameter bytes: what a segment stores of its model besides its least and its greatest value.
// "Forms as in `types.rs`; values are little-endian."
#![tactic(auto)]

ghost use Rattle.std.specs.Prelude.{◌≡◌, ◌≢◌, ◌++◌, ◌+◌, ◌≤◌, length, take, drop, Err, IfOk, OnErr};
ghost use Rattle.models.specs.Calls.{said_by};
ghost use Rattle.models.specs.declared.Refusal.TheVariants.{FormNotAllowed};
ghost use Rattle.parameters.specs.Bytes.{little_endian};
ghost use Rattle.parameters.specs.Forms.{form_bytes, answered_ends, by_flag, lower, rusts_for_pmc_mean, rusts_for_swing, pmc_mean_form, swing_form, swing_from, pmc_mean_from};
ghost use Rattle.parameters.specs.Calls.{length_answer, bytes_after};

use models::Refusal;

// The forms, by what they store: nothing, one byte that is not examined, a value, a flag and a value,
// or both ends.
#[derive(Clone, Copy)]
pub enum Form {
    Nothing,
    One(u8),
    Value(u32),
    Flagged(u8, u32),
    Both(u32, u32),
}

// ---- writing

pub fn encode_values_for_pmc_mean(
    value: u32,
    residuals_min_value: u32,
    residuals_max_value: u32,
    out: &mut [u8],
) -> Result<usize, Refusal>
    ensures length { said_by result ≡ length_answer (form_bytes (pmc_mean_form value residuals_min_value residuals_max_value)) out.old }
    ensures output { out.new ≡ bytes_after (form_bytes (pmc_mean_form value residuals_min_value residuals_max_value)) out.old }
{
    hand_out(
        form_for_pmc_mean(value, residuals_min_value, residuals_max_value),
        out,
    )
}

pub fn encode_values_for_swing(
    first_value: u32,
    last_value: u32,
    residuals_min_value: u32,
    residuals_max_value: u32,
    out: &mut [u8],
) -> Result<usize, Refusal>
    ensures length { said_by result ≡ length_answer (form_bytes (swing_form first_value last_value residuals_min_value residuals_max_value)) out.old }
    ensures output { out.new ≡ bytes_after (form_bytes (swing_form first_value last_value residuals_min_value residuals_max_value)) out.old }
{
    hand_out(
        form_for_swing(
            first_value,
            last_value,
            residuals_min_value,
            residuals_max_value,
        ),
        out,
    )
}

// A form's bytes to the front of a lent output, or 4.
#[tactic(auto, unfolding(crate::specs::Calls::length_answer, crate::specs::Calls::bytes_after, models::specs::Answers::judge))]
fn hand_out(form: Form, out: &mut [u8]) -> Result<usize, Refusal>
    ensures length { said_by result ≡ length_answer (form_bytes form) out.old }
    ensures output { out.new ≡ bytes_after (form_bytes form) out.old }
{
    let n = length_of(form);
    if out.len() < n {
        return Err(Refusal::OutputTooShort);
    }
    put(form, out);
    Ok(n)
}

// ---- which form, by the model's values and the residuals' least and greatest one, as the C interface has them

// The Rust's form, or the value where that does not give it back bit for bit.
#[tactic(auto, unfolding(crate::specs::Forms::pmc_mean_form, models::specs::Floats::min_bits, models::specs::Floats::max_bits))]
pub fn form_for_pmc_mean(value: u32, residuals_min_value: u32, residuals_max_value: u32) -> Form
    ensures { result ≡ pmc_mean_form value residuals_min_value residuals_max_value }
{
    let v = models::plain(value);
    let form = rusts_for_pmc_mean(v, residuals_min_value, residuals_max_value);
    let min = models::lesser(v, residuals_min_value);
    let max = models::greater(v, residuals_max_value);
    match pmc_mean_in(form, min, max) {
        Ok(read) if read == v => form,
        _ => Form::Value(v),
    }
}

// The Rust's form, or both ends where that does not give them back bit for bit.
#[tactic(auto, unfolding(crate::specs::Forms::swing_form, models::specs::Floats::min_bits, models::specs::Floats::max_bits))]
pub fn form_for_swing(
    first_value: u32,
    last_value: u32,
    residuals_min_value: u32,
    residuals_max_value: u32,
) -> Form
    ensures { result ≡ swing_form first_value last_value residuals_min_value residuals_max_value }
{
    let a = models::plain(first_value);
    let b = models::plain(last_value);
    let form = rusts_for_swing(a, b, residuals_min_value, residuals_max_value);
    let min = models::lesser(models::lesser(a, b), residuals_min_value);
    let max = models::greater(models::greater(a, b), residuals_max_value);
    match swing_in(form, min, max) {
        Ok((first, last)) if first == a && last == b => form,
        _ => Form::Both(a, b),
    }
}

// Whether the left is less than the right, as floats.
fn is_lower(a: u32, b: u32) -> bool
    ensures { result ≡ lower a b }
{
    numbers::value_of_f32(a) < numbers::value_of_f32(b)
}

#[tactic(auto, unfolding(crate::specs::Forms::rusts_for_pmc_mean))]
fn rusts_for_pmc_mean(value: u32, residuals_min_value: u32, residuals_max_value: u32) -> Form
    ensures { result ≡ rusts_for_pmc_mean value residuals_min_value residuals_max_value }
{
    if !is_lower(residuals_min_value, value) {
        Form::Nothing
    } else if numbers::value_of_f32(residuals_max_value) <= numbers::value_of_f32(value) {
        Form::One(1)
    } else {
        Form::Value(value)
    }
}

#[tactic(auto, unfolding(crate::specs::Forms::rusts_for_swing, models::specs::Floats::min_bits, models::specs::Floats::max_bits))]
fn rusts_for_swing(
    first_value: u32,
    last_value: u32,
    residuals_min_value: u32,
    residuals_max_value: u32,
) -> Form
    ensures { result ≡ rusts_for_swing first_value last_value residuals_min_value residuals_max_value }
{
    let min = models::lesser(first_value, last_value);
    let max = models::greater(first_value, last_value);
    let below = is_lower(residuals_min_value, min);
    let above = is_lower(max, residuals_max_value);
    let rises = is_lower(first_value, last_value);
    match (below, above, rises) {
        (true, true, true) => Form::Both(min, max),
        (true, true, false) => Form::Both(max, min),
        (true, false, true) => Form::Flagged(0, min),
        (true, false, false) => Form::Flagged(1, min),
        (false, true, true) => Form::Flagged(2, max),
        (false, true, false) => Form::Flagged(3, max),
        (false, false, true) => Form::Nothing,
        (false, false, false) => Form::One(0),
    }
}

// What a form of PMC-Mean gives, read against a segment's least and greatest value.
#[tactic(auto, unfolding(crate::specs::Forms::pmc_mean_from, crate::specs::Bytes::little_endian))]
fn pmc_mean_in(form: Form, min: u32, max: u32) -> Result<u32, Refusal>
    ensures { said_by result ≡ pmc_mean_from min max (form_bytes form) }
{
    match form {
        Form::Nothing => Ok(models::plain(min)),
        Form::One(_) => Ok(models::plain(max)),
        Form::Value(v) => Ok(models::plain(v)),
        Form::Flagged(..) | Form::Both(..) => Err(Refusal::FormNotAllowed),
    }
}

// The same of Swing.
#[tactic(auto, using(crate::proofs::Read::flagged_read), unfolding(crate::specs::Forms::swing_from, crate::specs::Bytes::little_endian))]
#[inline(always)]
fn swing_in(form: Form, min: u32, max: u32) -> Result<(u32, u32), Refusal>
    ensures { said_by result ≡ swing_from min max (form_bytes form) }
{
    match form {
        Form::Nothing => ends(min, max),
        Form::One(_) => ends(max, min),
        Form::Value(_) => Err(Refusal::FormNotAllowed),
        Form::Flagged(flag, v) => by_flag(flag, v, min, max),
        Form::Both(a, b) => ends(a, b),
    }
}

// ---- bytes out

// How many bytes a form has.
#[tactic(auto, unfolding(crate::specs::Bytes::little_endian))]
pub fn length_of(form: Form) -> usize
    ensures { result ≡ length (form_bytes form) }
{
    match form {
        Form::Nothing => 0,
        Form::One(_) => 1,
        Form::Value(_) => 4,
        Form::Flagged(_, _) => 5,
        Form::Both(_, _) => 8,
    }
}

// A form's bytes to the front of an output that holds them.
#[tactic(auto, unfolding(crate::specs::Bytes::little_endian))]
pub fn put(form: Form, out: &mut [u8])
    requires { length (form_bytes form) ≤ length out.old }
    ensures { out.new ≡ form_bytes form ++ drop (length (form_bytes form)) out.old }
{
    match form {
        Form::Nothing => {}
        Form::One(byte) => out[0] = byte,
        Form::Value(v) => out[..4].copy_from_slice(&v.to_le_bytes()),
        Form::Flagged(flag, v) => {
            out[0] = flag;
            out[1..5].copy_from_slice(&v.to_le_bytes());
        }
        Form::Both(a, b) => {
            out[..4].copy_from_slice(&a.to_le_bytes());
            out[4..8].copy_from_slice(&b.to_le_bytes());
        }
    }
}

// ---- reading

#[tactic(auto, unfolding(crate::specs::Forms::pmc_mean_from))]
pub fn decode_values_for_pmc_mean(
    min_value: u32,
    max_value: u32,
    values: &[u8],
) -> Result<u32, Refusal>
    ensures { said_by result ≡ pmc_mean_from min_value max_value values.now }
{
    pmc_mean_in(form_in(values)?, min_value, max_value)
}

#[tactic(auto, unfolding(crate::specs::Forms::swing_from))]
pub fn decode_values_for_swing(
    min_value: u32,
    max_value: u32,
    values: &[u8],
) -> Result<(u32, u32), Refusal>
    ensures { said_by result ≡ swing_from min_value max_value values.now }
{
    swing_in(form_in(values)?, min_value, max_value)
}

// The form that has these bytes; no other number of bytes is a form's.
fn form_in(values: &[u8]) -> Result<Form, Refusal>
    ensures ok { IfOk result (λ form. form_bytes form ≡ values.now) }
    ensures err { OnErr result (result ≡ Err FormNotAllowed) }
    ensures no_form { OnErr result ((length values.now ≢ 0) × (length values.now ≢ 1) × (length values.now ≢ 4) × (length values.now ≢ 5) × (length values.now ≢ 8)) }
{
    match values.len() {
        0 => Ok(Form::Nothing),
        1 => Ok(Form::One(values[0])),
        4 => Ok(Form::Value(value_at(values, 0))),
        5 => Ok(Form::Flagged(values[0], value_at(values, 1))),
        8 => Ok(Form::Both(value_at(values, 0), value_at(values, 4))),
        _ => Err(Refusal::FormNotAllowed),
    }
}

// Both ends, as they are answered.
fn ends(first: u32, last: u32) -> Result<(u32, u32), Refusal>
    ensures { said_by result ≡ answered_ends first last }
{
    Ok((models::plain(first), models::plain(last)))
}

#[tactic(auto, unfolding(crate::specs::Forms::by_flag))]
fn by_flag(flag: u8, v: u32, min: u32, max: u32) -> Result<(u32, u32), Refusal>
    ensures { said_by result ≡ by_flag min max flag v }
{
    match flag {
        0 => ends(v, max),
        1 => ends(max, v),
        2 => ends(min, v),
        3 => ends(v, min),
        _ => Err(Refusal::FormNotAllowed),
    }
}

// The value that has these four bytes.
fn value_at(values: &[u8], at: usize) -> u32
    requires { at + 4 ≤ length values.now }
    ensures { little_endian 4 result ≡ take 4 (drop at values.now) }
{
    u32::from_le_bytes([values[at], values[at + 1], values[at + 2], values[at + 3]])
}
