// The choice between the two models of a builder, and the whole rule as one call over a list of points.

ghost use Rattle.std.specs.Prelude.{◌≡◌, ◌≤◌, length};
ghost use Rattle.models.specs.Limits.{most_values, most_metadata};
ghost use Rattle.models.specs.Answers.{answered, verdict};
ghost use Rattle.models.specs.Calls.{said_by, said_on};
ghost use Rattle.pmc_mean.specs.Calls.{cost_causes};
ghost use Rattle.swing.specs.Calls as OfSwing;
ghost use Rattle.types.specs.Choice.{pmc_model, swing_model, swing_wins, end_lost, chosen, choice_of};
ghost use Rattle.types.specs.Calls.{finish_causes, finish_answer};
ghost use Rattle.types.specs.Run.{next, run, points, choice_causes, choice_answer};

use crate::{ModelBuilder, SelectedModel};
use models::{ErrorBound, Refusal, Refused};
use pmc_mean::PMCMean;
use swing::Swing;

impl ModelBuilder {
    // Chooses the model that needs fewer bytes for each value, with metadata of m bytes.
    #[tactic(auto, unfolding(models::specs::Answers::judge, crate::specs::Calls::finish_answer))]
    pub fn finish(self, m: usize) -> Result<SelectedModel, Refused<ModelBuilder>>
        ensures { said_on result ≡ finish_answer self m }
    {
        match self.judge_finish(m) {
            Err(cause) => Err(Refused { cause, state: self }),
            Ok(()) => Ok(self.selected(m)),
        }
    }

    #[tactic(auto, unfolding(models::specs::Answers::judge))]
    fn judge_finish(self, m: usize) -> Result<(), Refusal>
        ensures { said_by result ≡ verdict (finish_causes self m) }
    {
        let p = self.pmc_mean;
        let s = self.swing;
        if !(models::bound_allowed(p.error_bound) & models::bound_allowed(s.error_bound)) {
            return Err(Refusal::BoundNotAllowed);
        }
        if !(p.usable() & s.usable()) {
            return Err(Refusal::StateNotAllowed);
        }
        if !models::metadata_allowed(m) {
            return Err(Refusal::OverLimit);
        }
        if (p.length == 0) | (s.length == 0) {
            return Err(Refusal::NoModel);
        }
        Ok(())
    }

    // The choice, once nothing refuses it.
    #[tactic(auto, unfolding(crate::specs::Choice::choice_of))]
    fn selected(self, m: usize) -> SelectedModel
        requires { verdict (finish_causes self m) ≡ answered tt }
        ensures { result ≡ choice_of self m }
    {
        let p = self.pmc_mean;
        let s = self.swing;
        let wins = swing_wins(m, p.length, s.length);
        choose(wins, select_pmc_mean(p, m), select_swing(s, m))
    }

    // The builder that a step hands back.
    fn next(self, timestamp: i64, value: u32) -> ModelBuilder
        ensures { result ≡ next self (record { time = timestamp; bits = value }) }
    {
        match self.try_to_update_models(timestamp, value) {
            Ok(step) => step.state,
            Err(refused) => refused.state,
        }
    }

    // Steps over the points until both models have failed.
    fn stepped(self, timestamps: &[i64], values: &[u32]) -> ModelBuilder
        requires { length timestamps.now ≡ length values.now }
        ensures { result ≡ run self (points timestamps.now values.now) }
    {
        let mut b = self;
        for (&timestamp, &value) in timestamps.iter().zip(values) {
            if !b.could_fit() {
                break;
            }
            b = b.next(timestamp, value);
        }
        b
    }
}

// ---- the two models

#[tactic(auto, unfolding(crate::specs::Choice::pmc_model, models::specs::Answers::judge))]
fn select_pmc_mean(s: PMCMean, m: usize) -> SelectedModel
    requires { verdict (cost_causes s m) ≡ answered tt }
    ensures { result ≡ pmc_model s m }
{
    let value = numbers::bits_of_f32(s.average());
    SelectedModel {
        model_type_id: 0,
        length: s.length,
        first_value: value,
        last_value: value,
        bytes_per_value: models::cost(m, s.length),
    }
}

#[tactic(auto, using(swing::proofs::Allowed::held), unfolding(crate::specs::Choice::swing_model, models::specs::Answers::judge))]
fn select_swing(s: Swing, m: usize) -> SelectedModel
    requires { verdict (OfSwing.cost_causes s m) ≡ answered tt }
    ensures { result ≡ swing_model s m }
{
    SelectedModel {
        model_type_id: 1,
        length: s.length,
        first_value: lines::answered(s.first_value),
        last_value: lines::answered(s.last_value()),
        bytes_per_value: models::cost(m + 1, s.length),
    }
}

// Whether Swing needs fewer bytes for each value: by the size of the metadata, and how many values
// each model stands for. The quotients are multiplied out, so that none is rounded. No product is
// above 65,536 * 65,536, or 2^32, so 64 bits hold each.
fn swing_wins(m: usize, pmc_mean: usize, swing: usize) -> bool
    requires few_bytes { m ≤ most_metadata }
    requires few_pmc_mean { pmc_mean ≤ most_values }
    requires few_swing { swing ≤ most_values }
    ensures { result ≡ swing_wins m pmc_mean swing }
{
    (m + 1) * pmc_mean < m * swing
}

// Whether the line starts at a finite value and does not end at one.
fn end_lost(swing: SelectedModel) -> bool
    ensures { result ≡ end_lost swing }
{
    let first = numbers::value_of_f32(swing.first_value);
    let last = numbers::value_of_f32(swing.last_value);
    first.is_finite() & !last.is_finite()
}

#[tactic(auto, unfolding(crate::specs::Choice::chosen))]
fn choose(wins: bool, pmc_mean: SelectedModel, swing: SelectedModel) -> SelectedModel
    ensures { result ≡ chosen wins pmc_mean swing }
{
    if wins & !end_lost(swing) {
        swing
    } else {
        pmc_mean
    }
}

// ---- the rule as one call

// Fits both models to the points from the first one on, each until it fails, and chooses one.
pub fn choose_model(
    timestamps: &[i64],
    values: &[u32],
    error_bound: ErrorBound,
    m: usize,
) -> Result<SelectedModel, Refusal>
    ensures { said_by result ≡ choice_answer timestamps.now values.now error_bound m }
{
    judge_choice(timestamps, values, error_bound, m)?;
    let b = ModelBuilder::new(error_bound)?;
    Ok(b.stepped(timestamps, values).selected(m))
}

#[tactic(auto, unfolding(models::specs::Answers::judge))]
fn judge_choice(
    timestamps: &[i64],
    values: &[u32],
    error_bound: ErrorBound,
    m: usize,
) -> Result<(), Refusal>
    ensures { said_by result ≡ verdict (choice_causes timestamps.now values.now error_bound m) }
{
    let n = values.len();
    if !models::bound_allowed(error_bound) {
        return Err(Refusal::BoundNotAllowed);
    }
    if (models::MOST_VALUES < n) | !models::metadata_allowed(m) {
        return Err(Refusal::OverLimit);
    }
    if timestamps.len() != n {
        return Err(Refusal::CountsDisagree);
    }
    if !lines::times::in_order(timestamps) {
        return Err(Refusal::TimesNotAllowed);
    }
    if n == 0 {
        return Err(Refusal::NoModel);
    }
    Ok(())
}
