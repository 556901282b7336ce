// PMC-Mean: a model that stands for values by their average, as long as the least and the greatest of
// them are within the error bound of it. A state goes in by value, and a step hands the fitted one back.

#![tactic(auto)]

ghost use Rattle.std.specs.Prelude.{◌≡◌, ◌<◌, ◌≤◌, length};
ghost use Rattle.models.specs.Limits.{most_values};
ghost use Rattle.models.specs.Answers.{verdict};
ghost use Rattle.models.specs.Calls.{said_by, said_on};
ghost use Rattle.pmc_mean.specs.State.{usable, average, fits, tried, with_value};
ghost use Rattle.pmc_mean.specs.Calls.{new_answer, fit_causes, fit_answer, cost_answer, model_answer};
ghost use Rattle.pmc_mean.specs.Grid.{sum_answer, grid_causes, filled, grid_memory};

use models::{ErrorBound, Refusal, Refused, Stepped};

#[derive(Clone, Copy)]
pub struct PMCMean {
    pub error_bound: ErrorBound,
    // The least and the greatest value that the model stands for.
    pub min_value: f32,
    pub max_value: f32,
    pub sum_of_values: f64,
    // How many values the model stands for.
    pub length: usize,
}

impl PMCMean {
    // ---- the public calls

    // The state before any value.
    #[tactic(auto, using(numbers::proofs::Nans::nan32, models::proofs::Laws::zero_read), unfolding(crate::specs::Calls::new_answer, crate::specs::State::fresh, models::specs::Answers::judge))]
    pub fn new(error_bound: ErrorBound) -> Result<PMCMean, Refusal>
        ensures { said_by result ≡ new_answer error_bound }
    {
        if !models::bound_allowed(error_bound) {
            return Err(Refusal::BoundNotAllowed);
        }
        Ok(PMCMean {
            error_bound,
            min_value: f32::NAN,
            max_value: f32::NAN,
            sum_of_values: 0.0,
            length: 0,
        })
    }

    // Tries to have the model stand for one more value.
    #[tactic(auto, unfolding(crate::specs::Calls::fit_answer, models::specs::Answers::judge))]
    pub fn fit_value(self, value: u32) -> Result<Stepped<PMCMean>, Refused<PMCMean>>
        ensures { said_on result ≡ fit_answer self value }
    {
        match self.judge_fit() {
            Err(cause) => Err(Refused { cause, state: self }),
            Ok(()) => Ok(self.tried(numbers::value_of_f32(value))),
        }
    }

    // How many values the model stands for.
    pub fn len(self) -> usize
        ensures { result ≡ self.length }
    {
        self.length
    }

    // The bytes for each value: a segment's metadata is of m bytes, and the model needs no more.
    #[tactic(auto, unfolding(crate::specs::Calls::cost_answer, models::specs::Answers::judge))]
    pub fn bytes_per_value(self, m: usize) -> Result<f32, Refused<PMCMean>>
        ensures { said_on result ≡ cost_answer self m }
    {
        match models::judge_cost(self.error_bound, self.usable(), self.length, m) {
            Err(cause) => Err(Refused { cause, state: self }),
            Ok(()) => Ok(models::cost(m, self.length)),
        }
    }

    // The model: the average of the values.
    #[tactic(auto, unfolding(crate::specs::Calls::model_answer, models::specs::Answers::judge))]
    pub fn model(self) -> Result<u32, Refused<PMCMean>>
        ensures { said_on result ≡ model_answer self }
    {
        match models::judge_model(self.error_bound, self.usable(), self.length) {
            Err(cause) => Err(Refused { cause, state: self }),
            Ok(()) => Ok(numbers::bits_of_f32(self.average())),
        }
    }

    // ---- the causes of refusal

    // Whether a call may use the state.
    pub fn usable(self) -> bool
        ensures { result ≡ usable self }
    {
        self.length <= models::MOST_VALUES
    }

    #[tactic(auto, unfolding(models::specs::Answers::judge))]
    fn judge_fit(self) -> Result<(), Refusal>
        ensures { said_by result ≡ verdict (fit_causes self) }
    {
        models::judge_step(self.error_bound, self.usable(), self.length, Ok(()))
    }

    // ---- the step

    // The step, once nothing refuses it.
    #[tactic(auto, unfolding(crate::specs::State::tried, crate::specs::State::with_value))]
    pub fn tried(self, value: f32) -> Stepped<PMCMean>
        requires { self.length < most_values }
        ensures { result ≡ tried self value }
    {
        let next = self.with_value(value);
        if next.fits() {
            Stepped {
                fits: true,
                state: next,
            }
        } else {
            Stepped {
                fits: false,
                state: self,
            }
        }
    }

    // The state with the value taken in.
    #[tactic(auto, unfolding(crate::specs::State::with_value, models::specs::Floats::min_f, models::specs::Floats::max_f))]
    fn with_value(self, value: f32) -> PMCMean
        requires { self.length < most_values }
        ensures { result ≡ with_value self value }
    {
        let mut s = self;
        s.min_value = models::lesser(self.min_value, value);
        s.max_value = models::greater(self.max_value, value);
        s.sum_of_values = self.sum_of_values + numbers::widen(value);
        s.length = self.length + 1;
        s
    }

    // The average, in f64, rounded to f32.
    #[tactic(auto, unfolding(crate::specs::State::average))]
    pub fn average(self) -> f32
        requires { self.length ≤ most_values }
        ensures { result ≡ average self }
    {
        let n = self.length;
        numbers::narrow(self.sum_of_values / (n as f64))
    }

    // Whether the average may stand for the least and for the greatest value.
    #[tactic(auto, unfolding(crate::specs::State::fits))]
    fn fits(self) -> bool
        requires { self.length ≤ most_values }
        ensures { result ≡ fits self }
    {
        let b = self.error_bound;
        let average = self.average();
        if !models::within(b, self.min_value, average) {
            return false;
        }
        models::within(b, self.max_value, average)
    }
}

// ---- a model's values

// The sum of `length` values that the model stands for: a product in f32.
#[tactic(auto, unfolding(crate::specs::Grid::sum_answer, models::specs::Answers::judge))]
pub fn sum(length: usize, value: u32) -> Result<u32, Refusal>
    ensures { said_by result ≡ sum_answer «length» value }
{
    if models::MOST_VALUES < length {
        return Err(Refusal::OverLimit);
    }
    Ok(numbers::bits_of_f32((length as f32) * numbers::value_of_f32(value)))
}

// Writes the model's value `count` times to the front of `out`.
#[tactic(auto, unfolding(crate::specs::Grid::grid_memory, models::specs::Answers::judge))]
pub fn grid(value: u32, count: usize, out: &mut [u32]) -> Result<(), Refusal>
    ensures answer { said_by result ≡ verdict (grid_causes count (length out.old)) }
    ensures output { out.new ≡ grid_memory value count out.old }
{
    judge_grid(count, out.len())?;
    fill(models::plain(value), count, out);
    Ok(())
}

// (MacaqueV judges its grid by the same two causes; each keeps its own function, which edits of its crate make wrong.)
#[tactic(auto, unfolding(models::specs::Answers::judge))]
fn judge_grid(count: usize, room: usize) -> Result<(), Refusal>
    ensures { said_by result ≡ verdict (grid_causes count room) }
{
    if models::MOST_VALUES < count {
        return Err(Refusal::OverLimit);
    }
    if room < count {
        return Err(Refusal::OutputTooShort);
    }
    Ok(())
}

#[tactic(auto, unfolding(crate::specs::Grid::filled))]
pub fn fill(bits: u32, count: usize, out: &mut [u32])
    requires { count ≤ length out.old }
    ensures { out.new ≡ filled bits count out.old }
{
    out[..count].fill(bits);
}
