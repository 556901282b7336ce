// A step of Swing, in the order of swing.rs, and the last value of the line that a state stands for.

ghost use Rattle.std.specs.Prelude.{◌≡◌, true, cond, ◌<◌};
ghost use Rattle.models.specs.Limits.{most_values};
ghost use Rattle.models.specs.Answers.{fitting};
ghost use Rattle.lines.specs.Times.{time_allowed};
ghost use Rattle.lines.specs.Line.{line_through};
ghost use Rattle.swing.specs.State.{usable, time_follows, first_point, upper_line, lower_line, sums_of};
ghost use Rattle.swing.specs.Step.{opened, moved, flat, second, swung, later, tried};
ghost use Rattle.swing.specs.Model.{last_value};

// (What a step needs stands in the `requires` of each of its parts: a type that holds it would be built in `tried` alone, and be taken apart
// by each part, which hands on a state that may be full.)

use crate::Swing;
use lines::{Line, Point, Terms, times};
use models::Stepped;

impl Swing {
    // ---- what a state holds

    // Whether a call may use the state.
    #[tactic(auto, unfolding(crate::specs::State::usable, crate::specs::State::times_allowed))]
    pub fn usable(self) -> bool
        ensures { result ≡ usable self }
    {
        let n = self.length;
        let a_ok = times::allowed(self.start_time);
        let b_ok = times::allowed(self.end_time);
        let same = (self.start_time <= self.end_time) & (self.end_time <= self.start_time);
        let one = (n == 1) & (same & a_ok);
        let more = (1 < n) & ((self.start_time < self.end_time) & (a_ok & b_ok));
        (n <= models::MOST_VALUES) & ((n == 0) | (one | more))
    }

    // Whether the point's time keeps the limits and is after the state's last one.
    #[tactic(auto, unfolding(crate::specs::State::time_follows))]
    pub fn follows(self, p: Point) -> bool
        ensures { result ≡ time_follows self p.time }
    {
        times::allowed(p.time) & ((self.length == 0) | (self.end_time < p.time))
    }

    fn first_point(self) -> Point
        ensures { result ≡ first_point self }
    {
        Point {
            time: self.start_time,
            value: self.first_value,
        }
    }

    fn upper_line(self) -> Line
        ensures { result ≡ upper_line self }
    {
        Line {
            slope: self.upper_bound_slope,
            intercept: self.upper_bound_intercept,
        }
    }

    fn lower_line(self) -> Line
        ensures { result ≡ lower_line self }
    {
        Line {
            slope: self.lower_bound_slope,
            intercept: self.lower_bound_intercept,
        }
    }

    fn sums(self) -> Terms
        ensures { result ≡ sums_of self }
    {
        Terms {
            numerator: self.slope_with_minimum_mse_numerator,
            denominator: self.slope_with_minimum_mse_denominator,
        }
    }

    // ---- the step

    // The step, once nothing refuses it.
    #[tactic(auto, using(crate::proofs::Allowed::held), unfolding(crate::specs::Step::tried))]
    pub fn tried(self, p: Point) -> Stepped<Swing>
        requires room { self.length < most_values }
        requires sound { usable self ≡ true }
        requires time { time_allowed p.time ≡ true }
        ensures { result ≡ tried self p }
    {
        let n = self.length;
        if n == 0 {
            return fitting(self.opened(p));
        }
        if !lines::both_finite(self.first_value, p.value) {
            return self.flat(p);
        }
        let d = models::deviation(self.error_bound, p.value);
        if n == 1 {
            fitting(self.second(p, d))
        } else {
            self.later(p, d)
        }
    }

    // The state with its first point.
    #[tactic(auto, unfolding(crate::specs::Step::opened))]
    fn opened(self, p: Point) -> Swing
        ensures { result ≡ opened self p }
    {
        Swing {
            start_time: p.time,
            end_time: p.time,
            first_value: p.value,
            length: 1,
            ..self
        }
    }

    // The state with one point more, these lines and these sums.
    #[tactic(auto, unfolding(crate::specs::Step::moved))]
    fn moved(self, p: Point, upper: Line, lower: Line, sums: Terms) -> Swing
        requires { self.length < most_values }
        ensures { result ≡ moved self p upper lower sums }
    {
        Swing {
            end_time: p.time,
            upper_bound_slope: upper.slope,
            upper_bound_intercept: upper.intercept,
            lower_bound_slope: lower.slope,
            lower_bound_intercept: lower.intercept,
            slope_with_minimum_mse_numerator: sums.numerator,
            slope_with_minimum_mse_denominator: sums.denominator,
            length: self.length + 1,
            ..self
        }
    }

    // One point more where the first value or this one is not finite: it fits if they are the same.
    #[tactic(auto, unfolding(crate::specs::Step::flat))]
    fn flat(self, p: Point) -> Stepped<Swing>
        requires { self.length < most_values }
        ensures { result ≡ flat self p }
    {
        if models::equal_or_nan(self.first_value, p.value) {
            let l = Line {
                slope: p.value,
                intercept: p.value,
            };
            fitting(self.moved(p, l, l, self.sums()))
        } else {
            Stepped {
                fits: false,
                state: self,
            }
        }
    }

    // The second point, which sets both lines, d being the deviation that the bound allows.
    #[tactic(auto, unfolding(crate::specs::Step::second))]
    fn second(self, p: Point, d: f64) -> Swing
        requires room { self.length < most_values }
        requires start { time_allowed self.start_time ≡ true }
        requires time { time_allowed p.time ≡ true }
        ensures { result ≡ second self p d }
    {
        let first = self.first_point();
        let upper = lines::line_through(first, lines::raised(p, d));
        let lower = lines::line_through(first, lines::lowered(p, d));
        self.moved(p, upper, lower, self.sums())
    }

    // A third or later point.
    #[tactic(auto, unfolding(crate::specs::Step::later, crate::specs::Step::later_at))]
    fn later(self, p: Point, d: f64) -> Stepped<Swing>
        requires room { self.length < most_values }
        requires start { time_allowed self.start_time ≡ true }
        requires time { time_allowed p.time ≡ true }
        ensures { result ≡ later self p d }
    {
        let high = lines::value_at(self.upper_line(), p.time);
        let low = lines::value_at(self.lower_line(), p.time);
        if (high + d < p.value) | (low - d > p.value) {
            Stepped {
                fits: false,
                state: self,
            }
        } else {
            fitting(self.swung(p, d, high, low))
        }
    }

    // A later point that fits: the lines are at `high` and `low` there.
    #[tactic(auto, unfolding(crate::specs::Step::swung, crate::specs::Step::upper_swung, crate::specs::Step::lower_swung))]
    fn swung(self, p: Point, d: f64, high: f64, low: f64) -> Swing
        requires room { self.length < most_values }
        requires start { time_allowed self.start_time ≡ true }
        requires time { time_allowed p.time ≡ true }
        ensures { result ≡ swung self p d high low }
    {
        let upper = self.swung_to(high - d > p.value, lines::raised(p, d), self.upper_line());
        let lower = self.swung_to(low + d < p.value, lines::lowered(p, d), self.lower_line());
        let sums = lines::added(self.sums(), lines::terms_of(self.first_point(), p));
        self.moved(p, upper, lower, sums)
    }

    // A bounding line or, where the point asks for it, the one from the first point through `to`.
    fn swung_to(self, asked: bool, to: Point, line: Line) -> Line
        requires start { time_allowed self.start_time ≡ true }
        requires time { time_allowed to.time ≡ true }
        ensures { result ≡ cond asked (line_through (first_point self) to) line }
    {
        if asked {
            lines::line_through(self.first_point(), to)
        } else {
            line
        }
    }

    // ---- the model

    // The line's value at the last time.
    #[tactic(auto, unfolding(crate::specs::Model::last_value))]
    pub fn last_value(self) -> f64
        requires start { time_allowed self.start_time ≡ true }
        requires end { time_allowed self.end_time ≡ true }
        ensures { result ≡ last_value self }
    {
        let sums = self.sums();
        let projected = sums.numerator / sums.denominator;
        let under = models::lesser(projected, self.upper_bound_slope);
        let slope = models::greater(self.lower_bound_slope, under);
        slope * lines::span(self.start_time, self.end_time) + self.first_value
    }
}

fn fitting(s: Swing) -> Stepped<Swing>
    ensures { result ≡ fitting s }
{
    Stepped {
        fits: true,
        state: s,
    }
}
