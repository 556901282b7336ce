// The choice of a segment's model: a PMC-Mean and a Swing model that are fitted side by side, each until
// its first failure, and the one of them that needs fewer bytes for each value.

#![tactic(auto)]

pub mod choice;

ghost use Rattle.std.specs.Prelude.{◌≡◌, true, ◌<◌};
ghost use Rattle.models.specs.Limits.{most_values};
ghost use Rattle.models.specs.Answers.{answered, verdict};
ghost use Rattle.models.specs.Calls.{said_by, said_on};
ghost use Rattle.lines.specs.Times.{time_allowed};
ghost use Rattle.swing.specs.State.{usable};
ghost use Rattle.types.specs.Builder.{bounds_allowed, states_allowed, room_left, time_fits, update_pmc, update_swing, updated, could_fit};
ghost use Rattle.types.specs.Calls.{new_answer, update_causes, update_answer};

use lines::{Point, times};
use models::{ErrorBound, Refusal, Refused, Stepped};
use pmc_mean::PMCMean;
use swing::Swing;

#[derive(Clone, Copy)]
pub struct ModelBuilder {
    pub pmc_mean: PMCMean,
    // Whether the model stands for all values so far; once it does not, it is not tried again. A flag, and no Option of the model: a
    // failed one keeps its state, which `finish` judges and chooses from.
    pub pmc_mean_could_fit_all: bool,
    pub swing: Swing,
    pub swing_could_fit_all: bool,
}

// The model that was chosen. Its id is 0 for PMC-Mean and 1 for Swing, the number that crosses to C and that segments hold.
#[derive(Clone, Copy)]
pub struct SelectedModel {
    pub model_type_id: u32,
    // How many values the model stands for.
    pub length: usize,
    // Its parameters as bits: the line's ends, or twice PMC-Mean's average.
    pub first_value: u32,
    pub last_value: u32,
    pub bytes_per_value: f32,
}

impl ModelBuilder {
    // ---- the public calls

    // The builder before any value.
    #[tactic(auto, unfolding(models::specs::Answers::judge, crate::specs::Calls::new_answer, crate::specs::Builder::fresh, pmc_mean::specs::Calls::new_answer, swing::specs::Calls::new_answer))]
    pub fn new(error_bound: ErrorBound) -> Result<ModelBuilder, Refusal>
        ensures { said_by result ≡ new_answer error_bound }
    {
        Ok(ModelBuilder {
            pmc_mean: PMCMean::new(error_bound)?,
            pmc_mean_could_fit_all: true,
            swing: Swing::new(error_bound)?,
            swing_could_fit_all: true,
        })
    }

    // Tries to have each model that has not failed yet stand for one more point. It fits where some model stands for all values so
    // far.
    #[tactic(auto, unfolding(models::specs::Answers::judge, crate::specs::Calls::update_answer))]
    pub fn try_to_update_models(
        self,
        timestamp: i64,
        value: u32,
    ) -> Result<Stepped<ModelBuilder>, Refused<ModelBuilder>>
        ensures { said_on result ≡ update_answer self timestamp value }
    {
        let p = lines::point_of(timestamp, value);
        match self.judge_update(p) {
            Err(cause) => Err(Refused { cause, state: self }),
            Ok(()) => {
                let state = self.updated(numbers::value_of_f32(value), p);
                Ok(Stepped {
                    fits: state.could_fit(),
                    state,
                })
            }
        }
    }

    // Whether some model stands for all values so far.
    pub fn could_fit(self) -> bool
        ensures { result ≡ could_fit self }
    {
        self.pmc_mean_could_fit_all | self.swing_could_fit_all
    }

    // ---- the causes of refusal of a step: a failed model judges nothing

    #[tactic(auto, unfolding(models::specs::Answers::judge))]
    fn judge_update(self, p: Point) -> Result<(), Refusal>
        ensures { said_by result ≡ verdict (update_causes self p.time) }
    {
        if !self.bounds_allowed() {
            return Err(Refusal::BoundNotAllowed);
        }
        if !self.states_allowed() {
            return Err(Refusal::StateNotAllowed);
        }
        if !self.room_left() {
            return Err(Refusal::OverLimit);
        }
        if !self.time_fits(p) {
            return Err(Refusal::TimesNotAllowed);
        }
        Ok(())
    }

    #[tactic(auto, unfolding(crate::specs::Builder::bounds_allowed))]
    fn bounds_allowed(self) -> bool
        ensures { result ≡ bounds_allowed self }
    {
        let a = self.pmc_mean.error_bound;
        let b = self.swing.error_bound;
        let first = !self.pmc_mean_could_fit_all | models::bound_allowed(a);
        first & (!self.swing_could_fit_all | models::bound_allowed(b))
    }

    #[tactic(auto, unfolding(crate::specs::Builder::states_allowed))]
    fn states_allowed(self) -> bool
        ensures { result ≡ states_allowed self }
    {
        let first = !self.pmc_mean_could_fit_all | self.pmc_mean.usable();
        first & (!self.swing_could_fit_all | self.swing.usable())
    }

    #[tactic(auto, unfolding(crate::specs::Builder::room_left))]
    fn room_left(self) -> bool
        ensures { result ≡ room_left self }
    {
        let first = !self.pmc_mean_could_fit_all | (self.pmc_mean.length != models::MOST_VALUES);
        first & (!self.swing_could_fit_all | (self.swing.length != models::MOST_VALUES))
    }

    #[tactic(auto, unfolding(crate::specs::Builder::time_fits))]
    fn time_fits(self, p: Point) -> bool
        ensures { result ≡ time_fits self p.time }
    {
        times::allowed(p.time) & (!self.swing_could_fit_all | self.swing.follows(p))
    }

    // ---- the step

    // The step, once nothing refuses it. The point's value is that of the f32.
    #[tactic(auto, unfolding(crate::specs::Builder::updated))]
    fn updated(self, value: f32, p: Point) -> ModelBuilder
        requires passed { verdict (update_causes self p.time) ≡ answered tt }
        requires value { value ≡ p.value }
        ensures { result ≡ updated self p }
    {
        self.update_pmc_mean(value).update_swing(p)
    }

    #[tactic(auto, unfolding(crate::specs::Builder::update_pmc, crate::specs::Builder::with_pmc))]
    fn update_pmc_mean(self, value: f32) -> ModelBuilder
        requires { self.pmc_mean_could_fit_all ≡ true → self.pmc_mean.length < most_values }
        ensures { result ≡ update_pmc self value }
    {
        if !self.pmc_mean_could_fit_all {
            return self;
        }
        let t = self.pmc_mean.tried(value);
        ModelBuilder {
            pmc_mean: t.state,
            pmc_mean_could_fit_all: t.fits,
            ..self
        }
    }

    #[tactic(auto, unfolding(crate::specs::Builder::update_swing, crate::specs::Builder::with_swing))]
    fn update_swing(self, p: Point) -> ModelBuilder
        requires swing_fits { (self.swing_could_fit_all ≡ true → (self.swing.length < most_values) × (usable self.swing ≡ true)) }
        requires time { time_allowed p.time ≡ true }
        ensures { result ≡ update_swing self p }
    {
        if !self.swing_could_fit_all {
            return self;
        }
        let t = self.swing.tried(p);
        ModelBuilder {
            swing: t.state,
            swing_could_fit_all: t.fits,
            ..self
        }
    }
}
