// Timestamps: from -2^52 to 2^52, so that each of them, and the difference of two, is exact in f64.

ghost use Rattle.std.specs.Prelude.{◌≡◌};
ghost use Rattle.lines.specs.Times.{time_allowed, in_order};

const LEAST: i64 = -4503599627370496;

const MOST: i64 = 4503599627370496;

// Whether the time keeps the limits.
#[tactic(auto, unfolding(crate::specs::Times::time_allowed))]
pub fn allowed(t: i64) -> bool
    ensures { result ≡ time_allowed t }
{
    (LEAST <= t) & (t <= MOST)
}

// Whether the times keep the limits and each is after the one before it.
pub fn in_order(ts: &[i64]) -> bool
    ensures { result ≡ in_order ts.now }
{
    let mut last = LEAST - 1;
    for &t in ts {
        if !(allowed(t) & (last < t)) {
            return false;
        }
        last = t;
    }
    true
}
