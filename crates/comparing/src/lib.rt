// Two uploads compared: a line for each index at which their values differ, and how many there are; or the one line of a refusal.
// A line's text goes to the front of a lent array, and the call answers how long it is.
#![tactic(auto)]

ghost use Rattle.std.specs.Prelude.{◌≡◌, ◌≤◌, length};
ghost use Rattle.models.specs.Answers.{answered, verdict};
ghost use Rattle.models.specs.Calls.{said_by};
ghost use Rattle.models.specs.Limits.{most_values};
ghost use Rattle.models.specs.Refusals.{fault_of};
ghost use Rattle.macaque_v.specs.Read.{values_in};
ghost use Rattle.comparing.specs.File.{opens_by, file_stream, over_limit};
ghost use Rattle.comparing.specs.Text.{side_text, laid};
ghost use Rattle.comparing.specs.Inner.Answers.{of_side};
ghost use Rattle.comparing.specs.Calls.{begun_by, open_answer, judge_answer, says_judged, turn_of, pair_of, told_by, may_go, is_full, step_causes, both_turns, step_said, step_left, step_answer, step_memory};

mod line;

use macaque_v::{MacaqueV, Opening};
use models::Refusal;
use reader::position;
use reader::position::Position;

// The bytes before a file's stream: its mode, its opening value and its count.
const HEAD: usize = 9;

// How many bytes of stream a file may have.
const MOST_BYTES: usize = 24576;

#[derive(Clone, Copy)]
pub enum Side {
    Left,
    Right,
}

// An index at which the streams differ, and what each of them has there: a value, or none behind its last.
#[derive(Clone, Copy)]
pub struct Difference {
    pub index: usize,
    pub left: Option<u32>,
    pub right: Option<u32>,
}

// One stream as it is walked: where its reader stands, and how many values are still to come.
#[derive(Clone, Copy)]
pub struct Half {
    pub position: Position,
    pub rest: usize,
}

// Where comparing stands: in both streams, with so many differences behind it.
#[derive(Clone, Copy)]
pub struct Pair {
    pub left: Half,
    pub right: Half,
    pub found: usize,
}

// Which file is refused, and why.
#[derive(Clone, Copy)]
pub struct RefusedFile {
    pub side: Side,
    pub cause: Refusal,
}

// One index: the length of its line, 0 where the values are the same, and where comparing stands behind it; or the length of the last
// line, where both streams have ended.
#[derive(Clone, Copy)]
pub enum StepLine {
    On { length: usize, next: Pair },
    Last { length: usize },
}

// ---- the public calls

// Judges both files, the left one first, each nine bytes of head and a stream: where comparing begins.
#[tactic(auto, unfolding(crate::specs::Calls::judge_answer))]
pub fn judge(left: &[u8], right: &[u8]) -> Result<Pair, RefusedFile>
    ensures { says_judged result ≡ judge_answer left.now right.now }
{
    let left = open_side(Side::Left, left)?;
    let right = open_side(Side::Right, right)?;
    Ok(Pair {
        left,
        right,
        found: 0,
    })
}

// The next index of both: its line, or the last one.
#[tactic(auto, unfolding(crate::specs::Calls::step_answer, crate::specs::Calls::step_memory, crate::specs::Calls::step_told, models::specs::Answers::judge))]
pub fn step(left: &[u8], right: &[u8], at: Pair, line: &mut [u8; 80]) -> Result<StepLine, Refusal>
    ensures answer { said_by result ≡ step_answer left.now right.now at }
    ensures text { line.new ≡ step_memory left.now right.now at line.old }
{
    let l = stream_in(left);
    let r = stream_in(right);
    judge_step(l.len(), r.len(), at)?;
    take_both(l, r, at, line)
}

// The only line where a file is refused.
#[tactic(auto, unfolding(crate::specs::Text::side_text))]
pub fn refusal(side: Side, cause: Refusal, line: &mut [u8; 80]) -> usize
    ensures length { result ≡ length (side_text side (fault_of cause)) }
    ensures text { line.new ≡ laid (side_text side (fault_of cause)) line.old }
{
    let at = line::side(side, line);
    listing::line::refused(cause, line, at)
}

// ---- a file

// The file of that side.
fn open_side(side: Side, file: &[u8]) -> Result<Half, RefusedFile>
    ensures { says_judged result ≡ of_side side (open_answer file.now) }
{
    open_file(file).map_err(|cause| RefusedFile { side, cause })
}

// A file's stream before its first value.
#[tactic(auto, unfolding(crate::specs::Calls::open_answer, crate::specs::File::file_values, models::specs::Answers::judge))]
fn open_file(file: &[u8]) -> Result<Half, Refusal>
    ensures { said_by result ≡ open_answer file.now }
{
    if file.len() < HEAD {
        return Err(Refusal::EndsEarly { value: 0, place: 0 });
    }
    let mode = file[0];
    let count = listing::word_at(file, 5) as usize;
    if over_limit(mode, count, file.len() - HEAD) {
        return Err(Refusal::OverLimit);
    }
    open_stream(
        &file[HEAD..],
        count,
        opening_of(mode, listing::word_at(file, 1)),
    )
}

// Whether a mode, a count or a number of bytes is above its limit. (The mode is a byte of the file until it is judged.)
fn over_limit(mode: u8, count: usize, bytes: usize) -> bool
    ensures { result ≡ over_limit mode count bytes }
{
    (1 < mode) | (MacaqueV::MOST_VALUES < count) | (MOST_BYTES < bytes)
}

fn opening_of(mode: u8, value: u32) -> Opening
    ensures { result ≡ opens_by mode value }
{
    if mode == 0 {
        return Opening::First;
    }
    Opening::On(value)
}

// The stream is read whole, and nothing of it is kept.
#[tactic(auto, unfolding(reader::specs::Run::last_answer, models::specs::Answers::judge))]
fn open_stream(stream: &[u8], count: usize, opening: Opening) -> Result<Half, Refusal>
    requires { count ≤ most_values }
    ensures { said_by result ≡ begun_by count opening (values_in stream.now count opening) }
{
    reader::last_value(stream, count, opening)?;
    let position = position::start(opening);
    Ok(Half {
        position,
        rest: count,
    })
}

// A file's bytes behind its head.
fn stream_in<'a>(file: &'a [u8]) -> &'a [u8]
    ensures { result.now ≡ file_stream file.now }
{
    &file[HEAD.min(file.len())..]
}

// ---- the causes for which a step is refused

#[tactic(auto, unfolding(models::specs::Answers::judge))]
fn judge_step(left: usize, right: usize, at: Pair) -> Result<(), Refusal>
    ensures { said_by result ≡ verdict (step_causes left right at) }
{
    let l = at.left;
    let r = at.right;
    if (MacaqueV::MOST_VALUES < at.found) | !may_go(left, l) | !may_go(right, r) {
        return Err(Refusal::StateNotAllowed);
    }
    if is_full(l) | is_full(r) {
        return Err(Refusal::OverLimit);
    }
    Ok(())
}

// Whether a side may be walked on, in a stream of so many bytes.
fn may_go(bytes: usize, half: Half) -> bool
    ensures { result ≡ may_go bytes half }
{
    let position = half.position;
    (half.rest == 0) | position::may_use(bytes, position.at)
}

// Whether a value is to come behind as many as a stream may have.
fn is_full(half: Half) -> bool
    ensures { result ≡ is_full half }
{
    !(half.rest == 0) & (half.position.at.count == MacaqueV::MOST_VALUES)
}

// ---- one index

// What both streams have there.
fn take_both(left: &[u8], right: &[u8], at: Pair, line: &mut [u8; 80]) -> Result<StepLine, Refusal>
    requires { at.found ≤ most_values }
    ensures answer { said_by result ≡ step_said (both_turns left.now right.now at) }
    ensures text { line.new ≡ step_left line.old (both_turns left.now right.now at) }
{
    let a = take_turn(left, at.left)?;
    let b = take_turn(right, at.right)?;
    Ok(told(at, a, b, line))
}

// What one stream has at the index, and where it stands behind that.
#[derive(Clone, Copy)]
pub struct Turn {
    pub entry: Option<u32>,
    pub after: Half,
}

#[tactic(auto, unfolding(crate::specs::Calls::turn_of))]
fn take_turn(stream: &[u8], half: Half) -> Result<Turn, Refusal>
    ensures { said_by result ≡ turn_of stream.now half }
{
    if half.rest == 0 {
        return Ok(Turn {
            entry: None,
            after: half,
        });
    }
    let moved = position::step_from(stream, half.position);
    let value = moved.answer?;
    Ok(Turn {
        entry: Some(value),
        after: Half {
            position: moved.after,
            rest: half.rest - 1,
        },
    })
}

// The line of what both have at the index.
#[tactic(auto, unfolding(crate::specs::Calls::told_by))]
fn told(at: Pair, a: Turn, b: Turn, line: &mut [u8; 80]) -> StepLine
    requires { at.found ≤ most_values }
    ensures answer { answered result ≡ step_said (answered (told_by at a b)) }
    ensures text { line.new ≡ step_left line.old (answered (told_by at a b)) }
{
    let left = a.entry;
    let right = b.entry;
    if left != right {
        let index = at.left.position.at.count.max(at.right.position.at.count);
        let length = line::difference(Difference { index, left, right }, line);
        return StepLine::On {
            length,
            next: pair_of(a, b, at.found + 1),
        };
    }
    match left {
        None => StepLine::Last {
            length: line::differ(at.found, line),
        },
        Some(_) => StepLine::On {
            length: 0,
            next: pair_of(a, b, at.found),
        },
    }
}

// Where comparing stands behind the index.
fn pair_of(a: Turn, b: Turn, found: usize) -> Pair
    ensures { result ≡ pair_of a b found }
{
    let left = a.after;
    let right = b.after;
    Pair { left, right, found }
}
