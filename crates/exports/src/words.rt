// The words of a state's row: a bound's two, a 32-bit value, a timestamp.

ghost use Rattle.std.specs.Prelude.{◌≡◌, ◌%◌, ◌^◌};
ghost use Rattle.exports.specs.Words.{bound_kind, bound_bits, small, bound_in, bound_front, time_in, word_of_time};

use models::ErrorBound;

// ---- a bound: a kind and a pattern in the C interface, so no one value that From could take

pub fn kind_of(b: ErrorBound) -> u64
    ensures { result ≡ bound_kind b }
{
    match b {
        ErrorBound::Lossless => 0,
        ErrorBound::Absolute(_) => 1,
        ErrorBound::Relative(_) => 2,
    }
}

pub fn bits_of(b: ErrorBound) -> u64
    ensures { result ≡ bound_bits b }
{
    match b {
        ErrorBound::Lossless => 0,
        ErrorBound::Absolute(e) | ErrorBound::Relative(e) => numbers::bits_of_f32(e) as u64,
    }
}

// ---- what a word cannot stand for

// A length or a count that no call allows.
pub const NO_COUNT: usize = models::MOST_VALUES + 1;

// The low 32 bits of a word.
pub fn low(w: u64) -> u32
    ensures { result ≡ w % 2 ^ 32 }
{
    (w % 0x1_0000_0000) as u32
}

pub fn is_small(w: u64) -> bool
    ensures { result ≡ small w }
{
    w < 0x1_0000_0000
}

#[tactic(auto, using(numbers::proofs::Nans::nan32), unfolding(crate::specs::Words::bound_in))]
pub fn bound_in(kind: u64, bits: u64) -> ErrorBound
    ensures { result ≡ bound_in kind bits }
{
    match (u32::try_from(kind), u32::try_from(bits)) {
        (Ok(kind), Ok(bits)) => crate::bound_of(kind, bits),
        _ => ErrorBound::Absolute(f32::NAN),
    }
}

// The bound in a row's first two words; Lossless, which is always allowed, where they are not both there.
#[tactic(auto, unfolding(crate::specs::Words::bound_front))]
pub fn bound_front(row: &[u64]) -> ErrorBound
    ensures { result ≡ bound_front row.now }
{
    match row {
        [kind, bits, ..] => bound_in(*kind, *bits),
        _ => ErrorBound::Lossless,
    }
}

// ---- a timestamp, in two's complement

#[tactic(auto, unfolding(crate::specs::Words::time_in))]
pub fn time_in(w: u64) -> i64
    ensures { result ≡ time_in w }
{
    w.cast_signed()
}

#[tactic(auto, unfolding(crate::specs::Words::word_of_time))]
pub fn word_of_time(t: i64) -> u64
    ensures { result ≡ word_of_time t }
{
    t.cast_unsigned()
}
