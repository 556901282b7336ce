// The C face of the reader. Where it stands crosses as a row of six words (specs/Row.antt); the
// stream's bytes are handed to each call. A call answers a fault, of number 0 where nothing is refused, and a
// refusal changes nothing that was lent.
#![tactic(auto)]

ghost use Rattle.std.specs.Prelude.{◌≡◌, length};
ghost use Rattle.exports.specs.Face.{ask_fault, ask_row, fault_said, row_after, one_word};
ghost use Rattle.exports_stream.specs.Calls.{opening_of, count_in};
ghost use Rattle.reader.specs.Calls.{next_answer};
ghost use Rattle.reader.specs.Run.{last_answer};
ghost use Rattle.exports_reader.specs.Row.{position_in};
ghost use Rattle.exports_reader.specs.Calls.{open_fault, open_row, one_value, next_row, end_fault};

use models::Fault;
use reader::position;

mod row;

// A reader before the first value of a stream into the row: mode 0 for a stream that stores its first
// value in full, mode 1 for one that opens on the value `opening`.
#[tactic(auto, unfolding(crate::specs::Calls::open_fault, crate::specs::Calls::open_row, models::specs::Answers::judge, exports::specs::Face::fault_said, exports::specs::Inner::Put::front_after, crate::specs::Row::reader_row))]
pub fn modelardb_reader_open(mode: u32, opening: u32, reader: &mut [u64]) -> Fault
    ensures fault { result ≡ open_fault mode reader.old }
    ensures row { reader.new ≡ open_row mode opening reader.old }
{
    if 1 < mode {
        return exports::OVER_LIMIT;
    }
    let start = position::start(exports_stream::opening_of(mode, opening));
    exports::put_words(&row::position_words(start), reader)
}

// The next value into out[0]; the row becomes the reader behind it. A row that is too short stands for no
// reader, as one with wrong words does: it is refused with 2.
#[tactic(auto, unfolding(crate::specs::Calls::next_row, exports::specs::Face::fault_said, exports::specs::Face::row_after, exports::specs::Inner::Put::front_after, crate::specs::Row::reader_row))]
pub fn modelardb_reader_next(bytes: &[u8], reader: &mut [u64], out: &mut [u32]) -> Fault
    ensures fault { result ≡ ask_fault 1 (length out.old) (next_answer bytes.now (position_in reader.old)) }
    ensures row { reader.new ≡ next_row reader.old out.old (next_answer bytes.now (position_in reader.old)) }
    ensures value { out.new ≡ ask_row 1 one_value out.old (next_answer bytes.now (position_in reader.old)) }
{
    let step = position::step_from(bytes, row::position_in(reader));
    match step.answer {
        Err(r) => exports::fault_with(r, 1, out.len()),
        Ok(value) => {
            if out.len() < 1 {
                return exports::TOO_SHORT;
            }
            out[0] = value;
            exports::put_words(&row::position_words(step.after), reader)
        }
    }
}

// Whether the stream ends behind the values read; of a row that stands for no reader 2.
pub fn modelardb_reader_end(bytes: &[u8], reader: &[u64]) -> Fault
    ensures { result ≡ end_fault bytes.now reader.now }
{
    match position::end_from(bytes, row::position_in(reader)) {
        Err(r) => Fault::from(r),
        Ok(()) => exports::ACCEPTED,
    }
}

// The last of a stream's values, `count` of them, into out[0], by a reader that holds the stream; +0
// where there are none.
pub fn modelardb_reader_last_value(
    bytes: &[u8],
    count: usize,
    mode: u32,
    opening: u32,
    out: &mut [u32],
) -> Fault
    ensures fault { result ≡ fault_said 1 (length out.old) (last_answer bytes.now (count_in mode count) (opening_of mode opening)) }
    ensures value { out.new ≡ row_after 1 one_word out.old (last_answer bytes.now (count_in mode count) (opening_of mode opening)) }
{
    let n = exports_stream::count_in(mode, count);
    let answer = reader::last_value(bytes, n, exports_stream::opening_of(mode, opening));
    exports::put_value(answer, out)
}
