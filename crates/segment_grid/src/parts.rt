// The parts of a segment: its residual count, its model's ends, and its times.

ghost use Rattle.std.specs.Prelude.{◌≡◌, ◌-◌, pos};
ghost use Rattle.models.specs.Calls.{said_by};
ghost use Rattle.lines.specs.Line.{point_of};
ghost use Rattle.lines.specs.Values.{no_line};
ghost use Rattle.segment_grid.specs.Segment.{count_in, ends_in};

use models::Refusal;

// How many residuals there are: the last byte, and 0 where there is none.
pub fn count_in(residuals: &[u8]) -> usize
    ensures { result ≡ count_in residuals.now }
{
    match residuals {
        [] => 0,
        [.., count] => *count as usize,
    }
}

// How many of the timestamps the model owns: all but the last ones, of the residuals.
pub fn owned(total: usize, residuals: &[u8]) -> usize
    ensures { result ≡ total - count_in residuals.now }
{
    total.saturating_sub(count_in(residuals))
}

// ---- the model's ends

#[tactic(auto, unfolding(crate::specs::Segment::ends_in))]
pub fn ends_in(
    model: u32,
    min_value: u32,
    max_value: u32,
    values: &[u8],
) -> Result<(u32, u32), Refusal>
    ensures { said_by result ≡ ends_in model min_value max_value values.now }
{
    if model == 1 {
        return parameters::decode_values_for_swing(min_value, max_value, values);
    }
    let value = parameters::decode_values_for_pmc_mean(min_value, max_value, values)?;
    Ok((value, value))
}

// Whether no line can be drawn between the ends, at whatever times.
pub fn no_line(first: u32, last: u32) -> bool
    ensures { result ≡ no_line (point_of (pos 0) first) (point_of (pos 0) last) }
{
    lines::no_line(lines::point_of(0, first), lines::point_of(0, last))
}
