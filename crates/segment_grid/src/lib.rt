// Reading a segment: its values, the model's and then the residuals', and their sum in two forms.
// A segment is handed in as its model (0 PMC-Mean, 1 Swing), all its timestamps, its least and its
// greatest value, its parameter bytes, and its residual bytes, whose last one is their count. They stand apart
// as the C interface has them, and the model is its number, since one that is none is a cause of refusal.

#![tactic(auto)]

mod draw;
mod parts;
mod total;

ghost use Rattle.std.specs.Prelude.{◌≡◌, length};
ghost use Rattle.models.specs.Answers.{judged};
ghost use Rattle.models.specs.Calls.{said_by};
ghost use Rattle.segment_grid.specs.Segment.{ends_in, given, by_average, over_times};
ghost use Rattle.segment_grid.specs.Calls.{grid_causes, grid_answer, grid_memory, sum_answer};

use macaque_v::MacaqueV;
use models::Refusal;

// ---- the public calls

// All values of the segment, to the front of `out`.
#[tactic(auto, unfolding(crate::specs::Calls::grid_answer, crate::specs::Calls::grid_memory, models::specs::Answers::judge))]
pub fn grid(
    model: u32,
    timestamps: &[i64],
    min_value: u32,
    max_value: u32,
    values: &[u8],
    residuals: &[u8],
    out: &mut [u32],
) -> Result<(), Refusal>
    ensures answer { said_by result ≡ grid_answer model timestamps.now (ends_in model min_value max_value values.now) residuals.now (length out.old) }
    ensures output { out.new ≡ grid_memory model timestamps.now (ends_in model min_value max_value values.now) residuals.now out.old }
{
    let ends = parts::ends_in(model, min_value, max_value, values);
    let (first, last) = judge(model, timestamps, ends, residuals, out.len())?;
    draw::draw(model, timestamps, first, last, residuals, out)
}

// The sum of all values: of the model's by the average of its ends, and the residuals'.
pub fn sum_by_average(
    model: u32,
    timestamps: &[i64],
    min_value: u32,
    max_value: u32,
    values: &[u8],
    residuals: &[u8],
) -> Result<u32, Refusal>
    ensures { said_by result ≡ sum_answer by_average model timestamps.now (ends_in model min_value max_value values.now) residuals.now }
{
    let ends = parts::ends_in(model, min_value, max_value, values);
    sum(true, model, timestamps, ends, residuals)
}

// The sum of all values: of the model's over its timestamps, and the residuals'.
pub fn sum_over(
    model: u32,
    timestamps: &[i64],
    min_value: u32,
    max_value: u32,
    values: &[u8],
    residuals: &[u8],
) -> Result<u32, Refusal>
    ensures { said_by result ≡ sum_answer over_times model timestamps.now (ends_in model min_value max_value values.now) residuals.now }
{
    let ends = parts::ends_in(model, min_value, max_value, values);
    sum(false, model, timestamps, ends, residuals)
}

// Both: `by_average` says which. A closure for the model's own sum is no plainer: its contract would
// have to name what `sum_answer` takes as this truth.
#[tactic(auto, unfolding(crate::specs::Calls::sum_answer, models::specs::Answers::judge))]
fn sum(
    by_average: bool,
    model: u32,
    timestamps: &[i64],
    ends: Result<(u32, u32), Refusal>,
    residuals: &[u8],
) -> Result<u32, Refusal>
    ensures { said_by result ≡ sum_answer by_average model timestamps.now (said_by ends) residuals.now }
{
    let (first, last) = judge(model, timestamps, ends, residuals, timestamps.len())?;
    total::total(by_average, model, timestamps, first, last, residuals)
}

// ---- the causes of refusal, in their order, and the model's ends where none of them holds

// `room` is the lent output's; a sum has none, and asks for no more than there are timestamps.
#[tactic(auto, unfolding(models::specs::Answers::judge, lines::specs::Values::no_line))]
fn judge(
    model: u32,
    timestamps: &[i64],
    ends: Result<(u32, u32), Refusal>,
    residuals: &[u8],
    room: usize,
) -> Result<(u32, u32), Refusal>
    ensures { said_by result ≡ judged (grid_causes model timestamps.now (said_by ends) residuals.now room) (given (said_by ends)) }
{
    let total = timestamps.len();
    let count = parts::count_in(residuals);
    if 1 < model || MacaqueV::MOST_VALUES < total {
        return Err(Refusal::OverLimit);
    }
    if total <= count {
        return Err(Refusal::CountsDisagree);
    }
    if room < total {
        return Err(Refusal::OutputTooShort);
    }
    let lone = model == 1 && total - count == 1;
    if !lines::times::in_order(timestamps) || lone {
        return Err(Refusal::TimesNotAllowed);
    }
    if !residuals.is_empty() && count == 0 {
        return Err(Refusal::FormNotAllowed);
    }
    let Ok((first, last)) = ends else {
        return Err(Refusal::FormNotAllowed);
    };
    if model == 1 && parts::no_line(first, last) {
        return Err(Refusal::NoModel);
    }
    Ok((first, last))
}
