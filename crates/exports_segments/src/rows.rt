// An answer into a lent row: its words at the front and no fault, or the fault of its refusal.
ghost use Rattle.std.specs.Prelude.{◌≡◌, ◌≤◌, length};
ghost use Rattle.models.specs.Calls.{said_by};
ghost use Rattle.exports.specs.Face.{plain_fault, row_in, one_word};
ghost use Rattle.exports_segments.specs.Calls.{segment_length, segment_words};

use models::{Fault, Refusal};
use segments::Segment;

pub const SEGMENT_WORDS: usize = 4;

// ---- rows beside other outputs, already judged

#[tactic(auto, unfolding(exports::specs::Face::fault_said, exports::specs::Inner::Put::front_after))]
pub fn put_length(answer: Result<usize, Refusal>, row: &mut [u64]) -> Fault
    requires { 1 ≤ length row.old }
    ensures fault { result ≡ plain_fault (said_by answer) }
    ensures row { row.new ≡ row_in one_word row.old (said_by answer) }
{
    match answer {
        Err(r) => Fault::from(r),
        Ok(n) => exports::put_words(&[n as u64], row),
    }
}

#[tactic(auto, unfolding(exports::specs::Face::fault_said, exports::specs::Inner::Put::front_after))]
pub fn put_segment(answer: Result<Segment, Refusal>, row: &mut [u64]) -> Fault
    requires { segment_length ≤ length row.old }
    ensures fault { result ≡ plain_fault (said_by answer) }
    ensures row { row.new ≡ row_in segment_words row.old (said_by answer) }
{
    match answer {
        Err(r) => Fault::from(r),
        Ok(s) => {
            let words = [
                s.min_value as u64,
                s.max_value as u64,
                s.values_length as u64,
                s.residuals_length as u64,
            ];
            exports::put_words(&words, row)
        }
    }
}
