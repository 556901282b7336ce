// The C face of the public calls, for the static library. Numbers cross as their bits, a NaN as the
// one that 01 names. A call answers a fault, of number 0 where nothing is refused; its values go into
// a lent row, of which a refusal changes nothing.

#![tactic(auto)]

pub mod words;

ghost use Rattle.std.specs.Prelude.{◌≡◌, length};
ghost use Rattle.std.specs.Float.{binary32, binary64};
ghost use Rattle.std.specs.Float.Ieee.{of_bits, to_bits};
ghost use Rattle.numbers.specs.Narrowed.{narrowed};
ghost use Rattle.models.specs.Refusals.{fault_of};
ghost use Rattle.models.specs.Answers.{answered};
ghost use Rattle.models.specs.Calls.{within_answer, deviation_answer, said_by};
ghost use Rattle.exports.specs.Face.{bound_of, refusal_fault, fault_said, row_after, one_word, word_of_truth, word_of32, word_of64};
ghost use Rattle.exports.specs.Inner.Put.{whole_row, pair_row, front_after, worded, words_said};

use models::{ErrorBound, Fault, Refusal};

// ---- numbers

// The f64 pattern of an f32 pattern's value.
pub fn modelardb_widen(bits: u32) -> u64
    ensures { result ≡ to_bits binary64 (of_bits binary32 bits) }
{
    numbers::bits_of_f64(numbers::widen(numbers::value_of_f32(bits)))
}

// The f32 pattern of an f64 pattern's value, rounded to the nearest.
pub fn modelardb_narrow(bits: u64) -> u32
    ensures { result ≡ to_bits binary32 (narrowed (of_bits binary64 bits)) }
{
    numbers::bits_of_f32(numbers::narrow(numbers::value_of_f64(bits)))
}

// ---- bounds

// Kind 0 is Lossless, 1 Absolute, 2 Relative. A higher one is no bound: what stands for it is not
// allowed, so that the call behind refuses it with 1.
#[tactic(auto, using(numbers::proofs::Nans::nan32), unfolding(crate::specs::Face::bound_of))]
pub fn bound_of(kind: u32, bits: u32) -> ErrorBound
    ensures { result ≡ bound_of kind bits }
{
    match kind {
        0 => ErrorBound::Lossless,
        1 => ErrorBound::Absolute(numbers::value_of_f32(bits)),
        2 => ErrorBound::Relative(numbers::value_of_f32(bits)),
        _ => ErrorBound::Absolute(f32::NAN),
    }
}

// ---- what a call says, as its fault and the front of a lent row

// What is answered where nothing is refused.
pub const ACCEPTED: Fault = Fault {
    number: 0,
    value: 0,
    place: 0,
};

// What is answered for a mode that is none.
pub const OVER_LIMIT: Fault = Fault {
    number: 3,
    value: 0,
    place: 0,
};

// What is answered where a row does not hold its words.
pub const TOO_SHORT: Fault = Fault {
    number: 4,
    value: 0,
    place: 0,
};

// What a refused call answers, where a row of `room` words is lent for `need` of them: 4 comes
// before a cause that 01 judges after it.
#[tactic(auto, unfolding(crate::specs::Face::refusal_fault))]
pub fn fault_with(r: Refusal, need: usize, room: usize) -> Fault
    ensures { result ≡ refusal_fault need room (fault_of r) }
{
    let fault = Fault::from(r);
    match fault.number {
        4..=11 if room < need => TOO_SHORT,
        _ => fault,
    }
}

// Words that nothing refuses, to the front of a row that holds them.
#[tactic(auto, unfolding(crate::specs::Face::fault_said, crate::specs::Inner::Put::front_after))]
pub fn put_words<T: Copy>(words: &[T], row: &mut [T]) -> Fault
    ensures fault { result ≡ fault_said (length words.now) (length row.old) (answered words.now) }
    ensures row { row.new ≡ front_after words.now row.old }
{
    if row.len() < words.len() {
        return TOO_SHORT;
    }
    // (No `copy_from_slice`, which makes the calls that hand out a short row slower: docs/DESIGN-PASS.md.)
    let mut i: usize = 0;
    while i < words.len() {
        row[i] = words[i];
        i += 1;
    }
    ACCEPTED
}

// The words of an answer, where the verdict on the call let it be given.
#[tactic(auto, unfolding(crate::specs::Face::fault_said, crate::specs::Face::row_after, crate::specs::Inner::Put::front_after))]
pub fn put_said(verdict: Result<(), Refusal>, words: &[u64], row: &mut [u64]) -> Fault
    ensures fault { result ≡ fault_said (length words.now) (length row.old) (words_said verdict words.now) }
    ensures row { row.new ≡ row_after (length words.now) whole_row row.old (words_said verdict words.now) }
{
    match verdict {
        Err(r) => fault_with(r, words.len(), row.len()),
        Ok(()) => put_words(words, row),
    }
}

// One value.
#[tactic(auto, unfolding(crate::specs::Face::fault_said, crate::specs::Face::row_after, crate::specs::Inner::Put::front_after))]
pub fn put_value(answer: Result<u32, Refusal>, out: &mut [u32]) -> Fault
    ensures fault { result ≡ fault_said 1 (length out.old) (said_by answer) }
    ensures row { out.new ≡ row_after 1 one_word out.old (said_by answer) }
{
    match answer {
        Err(r) => fault_with(r, 1, out.len()),
        Ok(bits) => put_words(&[bits], out),
    }
}

// The two ends of a line, or of what values keep to.
#[tactic(auto, unfolding(crate::specs::Face::fault_said, crate::specs::Face::row_after, crate::specs::Inner::Put::front_after))]
pub fn put_ends(answer: Result<(u32, u32), Refusal>, out: &mut [u32]) -> Fault
    ensures fault { result ≡ fault_said 2 (length out.old) (said_by answer) }
    ensures row { out.new ≡ row_after 2 pair_row out.old (said_by answer) }
{
    match answer {
        Err(r) => fault_with(r, 2, out.len()),
        Ok((first, last)) => put_words(&[first, last], out),
    }
}

// A number, by its pattern.
pub fn pattern_in(answer: Result<f32, Refusal>) -> Result<u32, Refusal>
    ensures { worded one_word (said_by result) ≡ worded word_of32 (said_by answer) }
{
    answer.map(numbers::bits_of_f32)
}

// 1 into out[0] where the approximate value may stand for the real one, else 0.
#[tactic(auto, using(crate::proofs::Truth::truth_word), unfolding(crate::specs::Face::fault_said, crate::specs::Face::row_after, crate::specs::Inner::Put::front_after))]
pub fn modelardb_is_value_within_error_bound(
    kind: u32,
    bound: u32,
    real_value: u32,
    approximate_value: u32,
    out: &mut [u32],
) -> Fault
    ensures fault { result ≡ fault_said 1 (length out.old) (within_answer (bound_of kind bound) real_value approximate_value) }
    ensures row { out.new ≡ row_after 1 word_of_truth out.old (within_answer (bound_of kind bound) real_value approximate_value) }
{
    let b = bound_of(kind, bound);
    match models::is_value_within_error_bound(b, real_value, approximate_value) {
        Err(r) => fault_with(r, 1, out.len()),
        Ok(is) => put_words(&[u32::from(is)], out),
    }
}

// The f64 pattern of how far a line may pass from the value into out[0].
#[tactic(auto, unfolding(crate::specs::Face::fault_said, crate::specs::Face::row_after, crate::specs::Inner::Put::front_after))]
pub fn modelardb_maximum_allowed_deviation(
    kind: u32,
    bound: u32,
    value: u64,
    out: &mut [u64],
) -> Fault
    ensures fault { result ≡ fault_said 1 (length out.old) (deviation_answer (bound_of kind bound) (of_bits binary64 value)) }
    ensures row { out.new ≡ row_after 1 word_of64 out.old (deviation_answer (bound_of kind bound) (of_bits binary64 value)) }
{
    let b = bound_of(kind, bound);
    match models::maximum_allowed_deviation(b, numbers::value_of_f64(value)) {
        Err(r) => fault_with(r, 1, out.len()),
        Ok(d) => put_words(&[numbers::bits_of_f64(d)], out),
    }
}
