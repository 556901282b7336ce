// The sum of a segment that nothing refuses but its residual stream.

ghost use Rattle.std.specs.Prelude.{◌≡◌, true, ◌<◌, length};
ghost use Rattle.models.specs.Calls.{said_by};
ghost use Rattle.lines.specs.Times.{in_order};
ghost use Rattle.segment_grid.specs.Segment.{count_in, model_sum};
ghost use Rattle.segment_grid.specs.Calls.{plus, with_residuals, residual_sum, segment_sum};

use crate::parts;
use macaque_v::Opening;
use models::Refusal;

#[tactic(auto, using(crate::proofs::Owned::in_order_take))]
pub fn total(
    by_average: bool,
    model: u32,
    timestamps: &[i64],
    first: u32,
    last: u32,
    residuals: &[u8],
) -> Result<u32, Refusal>
    requires { (in_order timestamps.now ≡ true) × (count_in residuals.now < length timestamps.now) }
    ensures { said_by result ≡ segment_sum by_average model timestamps.now (first, last) residuals.now }
{
    let owned = parts::owned(timestamps.len(), residuals);
    let of_model = of_model(by_average, model, &timestamps[..owned], first, last);
    add_residuals(of_model, residuals, last)
}

// The model's sum, of the times that it owns.
#[tactic(auto, using(crate::proofs::Owned::passed_on), unfolding(crate::specs::Segment::model_sum))]
fn of_model(
    by_average: bool,
    model: u32,
    times: &[i64],
    first: u32,
    last: u32,
) -> Result<u32, Refusal>
    requires { (in_order times.now ≡ true) × (0 < length times.now) }
    ensures { said_by result ≡ model_sum by_average model times.now (first, last) }
{
    let n = times.len();
    if model != 1 {
        return pmc_mean::sum(n, first);
    }
    if by_average {
        swing::sum_by_average(times[0], times[n - 1], first, last, n)
    } else {
        swing::sum_over(times[0], times[n - 1], first, last, times)
    }
}

// The model's sum and the residuals'.
fn add_residuals(
    of_model: Result<u32, Refusal>,
    residuals: &[u8],
    last: u32,
) -> Result<u32, Refusal>
    ensures { said_by result ≡ with_residuals (count_in residuals.now) (said_by of_model) (residual_sum residuals.now last) }
{
    let used = residuals.len().saturating_sub(1);
    let count = parts::count_in(residuals);
    let of_residuals = macaque_v::read::sum(&residuals[..used], count, Opening::On(last))?;
    let of_model = of_model?;
    if count == 0 {
        Ok(of_model)
    } else {
        Ok(plus(of_model, of_residuals))
    }
}

fn plus(a: u32, b: u32) -> u32
    ensures { result ≡ plus a b }
{
    numbers::bits_of_f32(numbers::value_of_f32(a) + numbers::value_of_f32(b))
}
