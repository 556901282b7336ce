// Drawing a segment that nothing refuses but its residual stream, which is read first: where it is
// refused, nothing is drawn.

ghost use Rattle.std.specs.Prelude.{◌≡◌, true, ◌++◌, ◌≤◌, ◌<◌, length, drop};
ghost use Rattle.models.specs.Limits.{most_values};
ghost use Rattle.models.specs.Calls.{said_by};
ghost use Rattle.lines.specs.Times.{in_order};
ghost use Rattle.macaque_v.specs.Read.{drawn, drawn_in};
ghost use Rattle.segment_grid.specs.Segment.{count_in, residuals_in, model_values};
ghost use Rattle.segment_grid.specs.Calls.{segment_values};

use crate::parts;
use macaque_v::Opening;
use models::Refusal;

pub fn draw(
    model: u32,
    timestamps: &[i64],
    first: u32,
    last: u32,
    residuals: &[u8],
    out: &mut [u32],
) -> Result<(), Refusal>
    requires { (length timestamps.now ≤ most_values) × (count_in residuals.now < length timestamps.now) × (length timestamps.now ≤ length out.old) × (in_order timestamps.now ≡ true) }
    ensures answer { said_by result ≡ drawn (segment_values model timestamps.now (first, last) residuals.now) }
    ensures output { out.new ≡ drawn_in out.old (segment_values model timestamps.now (first, last) residuals.now) }
{
    let owned = parts::owned(timestamps.len(), residuals);
    draw_residuals(residuals, last, &mut out[owned..])?;
    draw_model(model, &timestamps[..owned], first, last, out);
    Ok(())
}

// The residuals, to the front of `out`: their stream opens on the model's last value.
#[tactic(auto, unfolding(macaque_v::specs::Read::grid_answer, macaque_v::specs::Read::grid_memory, models::specs::Answers::judge))]
fn draw_residuals(residuals: &[u8], last: u32, out: &mut [u32]) -> Result<(), Refusal>
    requires { (count_in residuals.now ≤ most_values) × (count_in residuals.now ≤ length out.old) }
    ensures answer { said_by result ≡ drawn (residuals_in residuals.now last) }
    ensures output { out.new ≡ drawn_in out.old (residuals_in residuals.now last) }
{
    let used = residuals.len().saturating_sub(1);
    let count = parts::count_in(residuals);
    macaque_v::read::grid(&residuals[..used], count, Opening::On(last), out)
}

// The model's values at the times that it owns, to the front of `out`.
#[tactic(auto, using(crate::proofs::Owned::passed_on, crate::proofs::Owned::in_order_at), unfolding(crate::specs::Segment::model_values, lines::specs::Values::line_drawn, pmc_mean::specs::Grid::filled))]
fn draw_model(model: u32, times: &[i64], first: u32, last: u32, out: &mut [u32])
    requires { (in_order times.now ≡ true) × (0 < length times.now) × (length times.now ≤ length out.old) }
    ensures { out.new ≡ model_values model times.now (first, last) ++ drop (length times.now) out.old }
{
    if model == 1 {
        let a = lines::point_of(times[0], first);
        let b = lines::point_of(times[times.len() - 1], last);
        lines::draw(lines::line_through(a, b), times, out);
    } else {
        pmc_mean::fill(first, times.len(), out);
    }
}
