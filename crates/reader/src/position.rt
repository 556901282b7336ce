// Where a reader stands in its stream, and its calls on plain parameters: one value more, and the end.
ghost use Rattle.std.specs.Prelude.{◌≡◌};
ghost use Rattle.models.specs.Answers.{verdict};
ghost use Rattle.models.specs.Calls.{said_by};
ghost use Rattle.reader.specs.Calls.{opened_at, may_use, next_causes, handed, next_answer, says_moved, end_answer};

use macaque_v::read_run::{Cursor, Source};
use macaque_v::{MacaqueV, Opening, read, write};
use models::Refusal;

// How the stream opens (a truth of its own, the last value is there either way); the bit place behind the values read, how many they are, the last of them and
// its window.
#[derive(Clone, Copy)]
pub struct Position {
    pub with_first: bool,
    pub at: Cursor,
}

// What a next answers, and where the reader stands after it: behind the value or, where it is refused,
// where it stood.
#[derive(Clone, Copy)]
pub struct Moved {
    pub answer: Result<u32, Refusal>,
    pub after: Position,
}

// ---- the calls

// Before any value.
pub fn start(opening: Opening) -> Position
    ensures { result ≡ opened_at opening }
{
    let with_first = read::is_first(opening);
    let at = read::start(opening);
    Position { with_first, at }
}

// One value more.
pub fn step_from(stream: &[u8], from: Position) -> Moved
    ensures { says_moved result ≡ next_answer stream.now from }
{
    match behind_next(stream, from) {
        Err(cause) => Moved {
            answer: Err(cause),
            after: from,
        },
        Ok(at) => Moved {
            answer: Ok(at.last),
            after: Position { at, ..from },
        },
    }
}

// Where reading stands behind the next value.
#[tactic(auto, using(crate::proofs::Allowed::readable), unfolding(crate::specs::Calls::next_answer, crate::specs::Calls::next_read, models::specs::Answers::judge))]
fn behind_next(stream: &[u8], from: Position) -> Result<Cursor, Refusal>
    ensures { handed from (said_by result) ≡ next_answer stream.now from }
{
    judge_next(stream.len(), from.at)?;
    let source = Source {
        bytes: stream,
        first: from.with_first,
        at: from.at,
    };
    source.next()
}

// Whether the stream ends there.
#[tactic(auto, using(crate::proofs::Allowed::readable), unfolding(crate::specs::Calls::end_answer, models::specs::Answers::judge))]
pub fn end_from(stream: &[u8], from: Position) -> Result<(), Refusal>
    ensures { said_by result ≡ end_answer stream.now from }
{
    let at = from.at;
    if !may_use(stream.len(), at) {
        return Err(Refusal::StateNotAllowed);
    }
    let source = Source {
        bytes: stream,
        first: from.with_first,
        at,
    };
    source.judge_end()
}

// ---- the causes of refusal

#[tactic(auto, unfolding(models::specs::Answers::judge))]
fn judge_next(bytes: usize, at: Cursor) -> Result<(), Refusal>
    ensures { said_by result ≡ verdict (next_causes bytes at) }
{
    if !may_use(bytes, at) {
        return Err(Refusal::StateNotAllowed);
    }
    if at.count == MacaqueV::MOST_VALUES {
        return Err(Refusal::OverLimit);
    }
    Ok(())
}

// Whether a reader may be there: a writer in that place, with that length and window, may be used.
pub fn may_use(bytes: usize, at: Cursor) -> bool
    ensures { result ≡ may_use bytes at }
{
    write::keeps_rule(
        write::lent_bytes(bytes),
        at.lead,
        at.trail,
        at.place,
        at.count,
    )
}
