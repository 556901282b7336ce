// Points, the lines through them, and a line's values, in f64, as Swing works with them.
// The times of points keep the limits of timestamps, so that they are exact there.

#![tactic(auto)]

pub mod times;

ghost use Rattle.std.specs.Prelude.{◌≡◌, true, ◌≤◌, length};
ghost use Rattle.models.specs.Limits.{most_values};
ghost use Rattle.models.specs.Floats.{zero_f};
ghost use Rattle.lines.specs.Times.{time_allowed, in_order};
ghost use Rattle.lines.specs.Line.{point_of, raised, lowered, added, span_f, line_through, terms_of, value_at, answered_as, both_finite};
ghost use Rattle.lines.specs.Values.{in_time, no_line, average_sum, sum_from, line_drawn};

#[derive(Clone, Copy)]
pub struct Point {
    pub time: i64,
    pub value: f64,
}

#[derive(Clone, Copy)]
pub struct Line {
    pub slope: f64,
    pub intercept: f64,
}

// A point's part of the slope with the least mean squared error.
#[derive(Clone, Copy)]
pub struct Terms {
    pub numerator: f64,
    pub denominator: f64,
}

// The point at a time whose value has these bits.
pub fn point_of(time: i64, bits: u32) -> Point
    ensures { result ≡ point_of time bits }
{
    Point {
        time,
        value: numbers::widen(numbers::value_of_f32(bits)),
    }
}

// A value as it is answered: rounded to f32, by its bits.
#[tactic(auto, unfolding(crate::specs::Line::answered_as))]
pub fn answered(value: f64) -> u32
    ensures { result ≡ answered_as value }
{
    numbers::bits_of_f32(numbers::narrow(value))
}

// The point with its value raised, and lowered, by d: two functions, since `raised` and `lowered` are words of the steps' contracts.
pub fn raised(p: Point, d: f64) -> Point
    ensures { result ≡ raised p d }
{
    Point {
        value: p.value + d,
        ..p
    }
}

pub fn lowered(p: Point, d: f64) -> Point
    ensures { result ≡ lowered p d }
{
    Point {
        value: p.value - d,
        ..p
    }
}

// The time from start to end.
pub fn span(start: i64, end: i64) -> f64
    requires start_allowed { time_allowed start ≡ true }
    requires end_allowed { time_allowed end ≡ true }
    ensures { result ≡ span_f start end }
{
    (end - start) as f64
}

// The line through two points; level where their values are equal-or-NaN.
#[tactic(auto, unfolding(crate::specs::Line::line_through))]
pub fn line_through(a: Point, b: Point) -> Line
    requires a_allowed { time_allowed a.time ≡ true }
    requires b_allowed { time_allowed b.time ≡ true }
    ensures { result ≡ line_through a b }
{
    if models::equal_or_nan(a.value, b.value) {
        Line {
            slope: 0.0,
            intercept: a.value,
        }
    } else {
        let slope = (b.value - a.value) / span(a.time, b.time);
        let start = a.time as f64;
        Line {
            slope,
            intercept: a.value - slope * start,
        }
    }
}

// What the point b adds to the slope of a line from a on.
#[tactic(auto, unfolding(crate::specs::Line::terms_of))]
pub fn terms_of(a: Point, b: Point) -> Terms
    requires a_allowed { time_allowed a.time ≡ true }
    requires b_allowed { time_allowed b.time ≡ true }
    ensures { result ≡ terms_of a b }
{
    if models::equal_or_nan(a.value, b.value) {
        Terms {
            numerator: 0.0,
            denominator: 0.0,
        }
    } else {
        let t = span(a.time, b.time);
        Terms {
            numerator: (b.value - a.value) * t,
            denominator: t * t,
        }
    }
}

pub fn added(a: Terms, b: Terms) -> Terms
    ensures { result ≡ added a b }
{
    Terms {
        numerator: a.numerator + b.numerator,
        denominator: a.denominator + b.denominator,
    }
}

// The line's value at a time.
#[tactic(auto, unfolding(crate::specs::Line::value_at))]
pub fn value_at(line: Line, t: i64) -> f64
    requires { time_allowed t ≡ true }
    ensures { result ≡ value_at line t }
{
    line.slope * (t as f64) + line.intercept
}

// ---- a model's values

// Whether b is after a, both within the limits.
#[tactic(auto, unfolding(crate::specs::Values::in_time))]
pub fn in_time(a: Point, b: Point) -> bool
    ensures { result ≡ in_time a b }
{
    times::allowed(a.time) & (times::allowed(b.time) & (a.time < b.time))
}

pub fn both_finite(a: f64, b: f64) -> bool
    ensures { result ≡ both_finite a b }
{
    a.is_finite() & b.is_finite()
}

// Whether no line can be drawn: the values differ, and not both are finite.
#[tactic(auto, unfolding(crate::specs::Values::no_line))]
pub fn no_line(a: Point, b: Point) -> bool
    ensures { result ≡ no_line a b }
{
    !models::equal_or_nan(a.value, b.value) & !both_finite(a.value, b.value)
}

// The bits of the sum of `count` values of the line, by the average of its ends.
#[tactic(auto, unfolding(crate::specs::Values::average_sum))]
pub fn average_sum(a: Point, b: Point, count: usize) -> u32
    requires times { in_time a b ≡ true }
    requires few { count ≤ most_values }
    ensures { result ≡ average_sum a b count }
{
    let l = line_through(a, b);
    let first = value_at(l, a.time);
    let last = value_at(l, b.time);
    let average = (first + last) / 2.0;
    answered(average * (count as f64))
}

// The sum of the line's values at the times, from the left.
pub fn total(line: Line, ts: &[i64]) -> f64
    requires { in_order ts.now ≡ true }
    ensures { result ≡ sum_from zero_f line ts.now }
{
    let mut sum = 0.0;
    for &t in ts {
        sum += value_at(line, t);
    }
    sum
}

// Writes the bits of the line's value at each time to the front of `out`.
pub fn draw(line: Line, ts: &[i64], out: &mut [u32])
    requires times { in_order ts.now ≡ true }
    requires room { length ts.now ≤ length out.old }
    ensures { out.new ≡ line_drawn line ts.now out.old }
{
    // By index: of what an `iter_mut` writes a proof knows the length alone.
    for (i, &t) in ts.iter().enumerate() {
        out[i] = answered(value_at(line, t));
    }
}
