// The C face of the numbers and the bounds, as a static library: each call is that of crates/exports, with its clauses.

#![tactic(auto)]

ghost use Rattle.std.specs.Prelude.{◌≡◌, length};
ghost use Rattle.std.specs.Float.{binary32, binary64};
ghost use Rattle.std.specs.Float.Ieee.{of_bits, to_bits};
ghost use Rattle.numbers.specs.Narrowed.{narrowed};
ghost use Rattle.models.specs.Calls.{within_answer, deviation_answer};
ghost use Rattle.exports.specs.Face.{bound_of, fault_said, row_after, word_of_truth, word_of64};

use models::Fault;

// The f64 pattern of an f32 pattern's value.
#[unsafe(no_mangle)]
pub extern "C" fn modelardb_widen(bits: u32) -> u64
    ensures { result ≡ to_bits binary64 (of_bits binary32 bits) }
{
    exports::modelardb_widen(bits)
}

// The f32 pattern of an f64 pattern's value, rounded to the nearest.
#[unsafe(no_mangle)]
pub extern "C" fn modelardb_narrow(bits: u64) -> u32
    ensures { result ≡ to_bits binary32 (narrowed (of_bits binary64 bits)) }
{
    exports::modelardb_narrow(bits)
}

// 1 into out[0] where the approximate value may stand for the real one, else 0.
#[unsafe(no_mangle)]
pub extern "C" fn modelardb_is_value_within_error_bound(
    kind: u32,
    bound: u32,
    real_value: u32,
    approximate_value: u32,
    out: &mut [u32],
) -> Fault
    ensures fault { result ≡ fault_said 1 (length out.old) (within_answer (bound_of kind bound) real_value approximate_value) }
    ensures row { out.new ≡ row_after 1 word_of_truth out.old (within_answer (bound_of kind bound) real_value approximate_value) }
{
    exports::modelardb_is_value_within_error_bound(kind, bound, real_value, approximate_value, out)
}

// The f64 pattern of how far a line may pass from the value into out[0].
#[unsafe(no_mangle)]
pub extern "C" fn modelardb_maximum_allowed_deviation(
    kind: u32,
    bound: u32,
    value: u64,
    out: &mut [u64],
) -> Fault
    ensures fault { result ≡ fault_said 1 (length out.old) (deviation_answer (bound_of kind bound) (of_bits binary64 value)) }
    ensures row { out.new ≡ row_after 1 word_of64 out.old (deviation_answer (bound_of kind bound) (of_bits binary64 value)) }
{
    exports::modelardb_maximum_allowed_deviation(kind, bound, value, out)
}
