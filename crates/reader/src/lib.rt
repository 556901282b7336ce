// A reader that keeps hold of the lent stream and its place: it is opened, read value by value, and
// ended. Each call takes the reader apart and leaves the work to `position`, on the slice and the place.
#![tactic(auto)]

ghost use Rattle.std.specs.Prelude.{◌≡◌};
ghost use Rattle.models.specs.Calls.{said_by};
ghost use Rattle.reader.specs.Calls.{opened_at, says_next, next_answer, end_answer};
ghost use Rattle.reader.specs.Run.{last_answer};

use crate::position::Position;
use macaque_v::read_run::{Aim, Source};
use macaque_v::{MacaqueV, Opening};
use models::Refusal;

pub mod position;

#[derive(Clone, Copy)]
pub struct Reader<'a> {
    pub stream: &'a [u8],
    pub position: Position,
}

// What a next answers, and the reader after it: behind the value or, where it is refused, as it was.
#[derive(Clone, Copy)]
pub struct Next<'a> {
    pub answer: Result<u32, Refusal>,
    pub reader: Reader<'a>,
}

impl<'a> Reader<'a> {
    // Before the first value of the stream. Nothing is refused.
    pub fn open(stream: &'a [u8], opening: Opening) -> Reader<'a>
        ensures { (result.stream ≡ stream.entry) × (result.position ≡ opened_at opening) }
    {
        let position = position::start(opening);
        Reader { stream, position }
    }

    // The next value.
    pub fn next(self) -> Next<'a>
        ensures { (result.reader.stream ≡ self.entry.stream) × (says_next result.answer result.reader.position ≡ next_answer self.entry.stream.now self.entry.position) }
    {
        let step = position::step_from(self.stream, self.position);
        Next {
            answer: step.answer,
            reader: Reader {
                stream: self.stream,
                position: step.after,
            },
        }
    }

    // Whether the stream ends behind the values read.
    pub fn end(self) -> Result<(), Refusal>
        ensures { said_by result ≡ end_answer self.entry.stream.now self.entry.position }
    {
        position::end_from(self.stream, self.position)
    }
}

// The last of a stream's values, `count` of them, as a reader that goes through them all finds it; +0
// where there are none.
pub fn last_value(stream: &[u8], count: usize, opening: Opening) -> Result<u32, Refusal>
    ensures { said_by result ≡ last_answer stream.now count opening }
{
    if MacaqueV::MOST_VALUES < count {
        return Err(Refusal::OverLimit);
    }
    let (to, _) = Source::open(stream, opening).go_to_end(count, Aim::Nothing)?;
    if count == 0 {
        return Ok(0);
    }
    Ok(to.last)
}
