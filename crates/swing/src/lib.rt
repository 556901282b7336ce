// Swing: a line from the first point of a segment on that passes each later one within the error
// bound. A state goes in by value, and a step hands the fitted one back.

#![tactic(auto)]

pub mod step;

ghost use Rattle.std.specs.Prelude.{◌≡◌, ◌&&◌, length};
ghost use Rattle.models.specs.Answers.{verdict};
ghost use Rattle.models.specs.Calls.{said_by, said_on};
ghost use Rattle.lines.specs.Times.{in_order};
ghost use Rattle.lines.specs.Line.{point_of};
ghost use Rattle.lines.specs.Values.{in_time};
ghost use Rattle.swing.specs.Calls.{new_answer, fit_causes, fit_answer, cost_answer, says_model, model_answer};
ghost use Rattle.swing.specs.Grid.{line_causes, average_causes, average_answer, sum_causes, sum_answer, grid_causes, grid_memory};

use lines::Point;
use models::{ErrorBound, Refusal, Refused, Stepped};

#[derive(Clone, Copy)]
pub struct Swing {
    pub error_bound: ErrorBound,
    // The times of the first and of the last point that the model stands for.
    pub start_time: i64,
    pub end_time: i64,
    pub first_value: f64,
    // Between these two lines from the first point on lies every line that may stand for the points.
    pub upper_bound_slope: f64,
    pub upper_bound_intercept: f64,
    pub lower_bound_slope: f64,
    pub lower_bound_intercept: f64,
    // The slope with the least mean squared error, as a fraction.
    pub slope_with_minimum_mse_numerator: f64,
    pub slope_with_minimum_mse_denominator: f64,
    // How many points the model stands for.
    pub length: usize,
}

impl Swing {
    // ---- the public calls

    // The state before any point.
    #[tactic(auto, using(numbers::proofs::Nans::nan64, models::proofs::Laws::zero_read), unfolding(crate::specs::Calls::new_answer, crate::specs::State::fresh, models::specs::Answers::judge))]
    pub fn new(error_bound: ErrorBound) -> Result<Swing, Refusal>
        ensures { said_by result ≡ new_answer error_bound }
    {
        if !models::bound_allowed(error_bound) {
            return Err(Refusal::BoundNotAllowed);
        }
        Ok(Swing {
            error_bound,
            start_time: 0,
            end_time: 0,
            first_value: f64::NAN,
            upper_bound_slope: f64::NAN,
            upper_bound_intercept: f64::NAN,
            lower_bound_slope: f64::NAN,
            lower_bound_intercept: f64::NAN,
            slope_with_minimum_mse_numerator: 0.0,
            slope_with_minimum_mse_denominator: 0.0,
            length: 0,
        })
    }

    // Tries to have the model stand for one more point.
    #[tactic(auto, using(crate::proofs::Allowed::held), unfolding(crate::specs::Calls::fit_answer, models::specs::Answers::judge))]
    pub fn fit_data_point(
        self,
        timestamp: i64,
        value: u32,
    ) -> Result<Stepped<Swing>, Refused<Swing>>
        ensures { said_on result ≡ fit_answer self timestamp value }
    {
        let p = lines::point_of(timestamp, value);
        match self.judge_fit(p) {
            Err(cause) => Err(Refused { cause, state: self }),
            Ok(()) => Ok(self.tried(p)),
        }
    }

    // How many points the model stands for.
    pub fn len(self) -> usize
        ensures { result ≡ self.length }
    {
        self.length
    }

    // The bytes for each value: a segment's metadata is of m bytes, and the model needs one more.
    #[tactic(auto, using(crate::proofs::Allowed::held), unfolding(crate::specs::Calls::cost_answer, models::specs::Answers::judge))]
    pub fn bytes_per_value(self, m: usize) -> Result<f32, Refused<Swing>>
        ensures { said_on result ≡ cost_answer self m }
    {
        match models::judge_cost(self.error_bound, self.usable(), self.length, m) {
            Err(cause) => Err(Refused { cause, state: self }),
            Ok(()) => Ok(models::cost(m + 1, self.length)),
        }
    }

    // The model: the bits of the line's first and last value.
    #[tactic(auto, using(crate::proofs::Allowed::held), unfolding(crate::specs::Calls::model_answer, models::specs::Answers::judge))]
    pub fn model(self) -> Result<(u32, u32), Refused<Swing>>
        ensures { says_model result ≡ model_answer self }
    {
        match models::judge_model(self.error_bound, self.usable(), self.length) {
            Err(cause) => Err(Refused { cause, state: self }),
            Ok(()) => {
                let first = lines::answered(self.first_value);
                Ok((first, lines::answered(self.last_value())))
            }
        }
    }

    // The causes of refusal of a step.
    #[tactic(auto, unfolding(models::specs::Answers::judge))]
    fn judge_fit(self, p: Point) -> Result<(), Refusal>
        ensures { said_by result ≡ verdict (fit_causes self p.time) }
    {
        models::judge_step(self.error_bound, self.usable(), self.length, Ok(()))?;
        if !self.follows(p) {
            return Err(Refusal::TimesNotAllowed);
        }
        Ok(())
    }
}

// ---- a model's values: the line goes through (start_time, first_value) and (end_time, last_value), four numbers as the C interface has them

// The sum of `count` values, by the average of the line's ends.
#[tactic(auto, using(lines::proofs::Ordered::ends_in_time), unfolding(crate::specs::Grid::average_answer, models::specs::Answers::judge))]
pub fn sum_by_average(
    start_time: i64,
    end_time: i64,
    first_value: u32,
    last_value: u32,
    count: usize,
) -> Result<u32, Refusal>
    ensures { said_by result ≡ average_answer (point_of start_time first_value) (point_of end_time last_value) count }
{
    let a = lines::point_of(start_time, first_value);
    let b = lines::point_of(end_time, last_value);
    judge_average(a, b, count)?;
    Ok(lines::average_sum(a, b, count))
}

// The sum of the line's values at the timestamps.
#[tactic(auto, using(lines::proofs::Ordered::ends_in_time), unfolding(crate::specs::Grid::sum_answer, models::specs::Answers::judge))]
pub fn sum_over(
    start_time: i64,
    end_time: i64,
    first_value: u32,
    last_value: u32,
    timestamps: &[i64],
) -> Result<u32, Refusal>
    ensures { said_by result ≡ sum_answer (point_of start_time first_value) (point_of end_time last_value) timestamps.now }
{
    let a = lines::point_of(start_time, first_value);
    let b = lines::point_of(end_time, last_value);
    judge_sum(a, b, timestamps)?;
    let l = lines::line_through(a, b);
    Ok(lines::answered(lines::total(l, timestamps)))
}

// Writes the line's values at the timestamps to the front of `out`.
#[tactic(auto, using(lines::proofs::Ordered::ends_in_time), unfolding(crate::specs::Grid::grid_memory, models::specs::Answers::judge))]
pub fn grid(
    start_time: i64,
    end_time: i64,
    first_value: u32,
    last_value: u32,
    timestamps: &[i64],
    out: &mut [u32],
) -> Result<(), Refusal>
    ensures answer { said_by result ≡ verdict (grid_causes (point_of start_time first_value) (point_of end_time last_value) timestamps.now (length out.old)) }
    ensures output { out.new ≡ grid_memory (point_of start_time first_value) (point_of end_time last_value) timestamps.now out.old }
{
    let a = lines::point_of(start_time, first_value);
    let b = lines::point_of(end_time, last_value);
    judge_grid(a, b, timestamps, out.len())?;
    lines::draw(lines::line_through(a, b), timestamps, out);
    Ok(())
}

#[tactic(auto, unfolding(models::specs::Answers::judge))]
fn judge_line(ordered: bool, a: Point, b: Point) -> Result<(), Refusal>
    ensures { said_by result ≡ verdict (line_causes ordered a b) }
{
    if !ordered {
        return Err(Refusal::TimesNotAllowed);
    }
    if lines::no_line(a, b) {
        return Err(Refusal::NoModel);
    }
    Ok(())
}

#[tactic(auto, unfolding(models::specs::Answers::judge))]
fn judge_average(a: Point, b: Point, count: usize) -> Result<(), Refusal>
    ensures { said_by result ≡ verdict (average_causes a b count) }
{
    if models::MOST_VALUES < count {
        return Err(Refusal::OverLimit);
    }
    judge_line(lines::in_time(a, b), a, b)
}

#[tactic(auto, unfolding(models::specs::Answers::judge))]
fn judge_sum(a: Point, b: Point, timestamps: &[i64]) -> Result<(), Refusal>
    ensures { said_by result ≡ verdict (sum_causes a b timestamps.now) }
{
    if models::MOST_VALUES < timestamps.len() {
        return Err(Refusal::OverLimit);
    }
    judge_line(ordered(a, b, timestamps), a, b)
}

#[tactic(auto, unfolding(models::specs::Answers::judge))]
fn judge_grid(a: Point, b: Point, timestamps: &[i64], room: usize) -> Result<(), Refusal>
    ensures { said_by result ≡ verdict (grid_causes a b timestamps.now room) }
{
    if models::MOST_VALUES < timestamps.len() {
        return Err(Refusal::OverLimit);
    }
    if room < timestamps.len() {
        return Err(Refusal::OutputTooShort);
    }
    judge_line(ordered(a, b, timestamps), a, b)
}

// Whether the line's ends are in order, and the timestamps too.
fn ordered(a: Point, b: Point, timestamps: &[i64]) -> bool
    ensures { result ≡ (in_time a b && in_order timestamps.now) }
{
    lines::in_time(a, b) & lines::times::in_order(timestamps)
}
