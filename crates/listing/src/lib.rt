// The listing of a with-first stream, line by line: the header, a row for each value, the total; or the one line of a refusal.
// A line's text goes to the front of a lent array, and the call answers how long it is.
#![tactic(auto)]

ghost use Rattle.std.specs.Prelude.{◌≡◌, ◌+◌, ◌*◌, ◌≤◌, length};
ghost use Rattle.coding.specs.Inner.Ahead.{bits_in as word_bits};
ghost use Rattle.models.specs.Limits.{most_values};
ghost use Rattle.models.specs.Calls.{said_by};
ghost use Rattle.models.specs.Refusals.{fault_of};
ghost use Rattle.macaque_v.specs.declared.Opening.TheVariants.{First};
ghost use Rattle.macaque_v.specs.Read.{start_of};
ghost use Rattle.listing.specs.Text.{header_text, total_text, refused_text, laid};
ghost use Rattle.listing.specs.Rows.{kind_read};
ghost use Rattle.listing.specs.Listing.{word_at, read_whole};
ghost use Rattle.listing.specs.Calls.{counted, judge_answer, may_stand, row_answer, row_memory};
ghost use Rattle.listing.specs.Inner.Lines.{row_between};

pub mod line;

use coding::decode;
use coding::decode::Ahead;
use macaque_v::read_run::{Aim, Cursor, Source};
use macaque_v::{MacaqueV, Opening, read};
use models::Refusal;

// How a value stands in the stream: in full, as a repeat, with a new window, or in the window that is kept.
#[derive(Clone, Copy)]
pub enum Kind {
    Raw,
    Same,
    New,
    Keep,
}

// What a row says, but for its number.
#[derive(Clone, Copy)]
pub struct Fields {
    pub kind: Kind,
    // The leading zeros of the window.
    pub lead: u32,
    // How many bits the value takes.
    pub bits: usize,
    pub value: u32,
}

// The length of a row's line, and where reading stands behind its value.
#[derive(Clone, Copy)]
pub struct RowLine {
    pub length: usize,
    pub next: Cursor,
}

// ---- the public calls

// Judges a whole input, four bytes of count, then the stream: how many rows there are.
#[tactic(auto, unfolding(crate::specs::Calls::judge_answer, models::specs::Answers::judge))]
pub fn judge(input: &[u8]) -> Result<usize, Refusal>
    ensures { said_by result ≡ judge_answer input.now }
{
    if 32768 < input.len() {
        return Err(Refusal::OverLimit);
    }
    if input.len() < 4 {
        return Err(Refusal::EndsEarly { value: 0, place: 0 });
    }
    let count = word_at(input, 0) as usize;
    if MacaqueV::MOST_VALUES < count {
        return Err(Refusal::OverLimit);
    }
    judge_stream(&input[4..], count)
}

// The first line.
pub fn header() -> [u8; 24]
    ensures { result ≡ header_text }
{
    *b"no kind lead bits value\n"
}

// Where reading stands before the first row.
pub fn start() -> Cursor
    ensures { result ≡ start_of First }
{
    read::start(Opening::First)
}

// The line of the next value.
pub fn row(stream: &[u8], at: Cursor, line: &mut [u8; 80]) -> Result<RowLine, Refusal>
    ensures answer { said_by result ≡ row_answer stream.now at }
    ensures text { line.new ≡ row_memory stream.now at line.old }
{
    if !may_stand(stream.len(), at) {
        return Err(Refusal::StateNotAllowed);
    }
    if MacaqueV::MOST_VALUES <= at.count {
        return Err(Refusal::OverLimit);
    }
    let from = Source {
        bytes: stream,
        first: true,
        at,
    };
    let next = from.next()?;
    let length = line::row(at.count, row_between(from, next), line);
    Ok(RowLine { length, next })
}

// The last line, by the bits of all rows.
#[tactic(auto, unfolding(crate::specs::Text::total_text))]
pub fn total(bits: usize, line: &mut [u8; 80]) -> usize
    ensures length { result ≡ length (total_text bits) }
    ensures text { line.new ≡ laid (total_text bits) line.old }
{
    let at = line::word(b"total ", line, 0);
    line::number(bits, b'\n', line, at)
}

// The only line of an input that is refused.
pub fn refusal(cause: Refusal, line: &mut [u8; 80]) -> usize
    ensures length { result ≡ length (refused_text (fault_of cause)) }
    ensures text { line.new ≡ laid (refused_text (fault_of cause)) line.old }
{
    line::refused(cause, line, 0)
}

// ---- the input

// The number in four bytes from a place on.
pub fn word_at(input: &[u8], at: usize) -> u32
    requires { at + 4 ≤ length input.now }
    ensures { result ≡ word_at input.now at }
{
    u32::from_le_bytes([input[at], input[at + 1], input[at + 2], input[at + 3]])
}

fn judge_stream(stream: &[u8], count: usize) -> Result<usize, Refusal>
    requires { count ≤ most_values }
    ensures { said_by result ≡ counted count (read_whole count stream.now) }
{
    Source::open(stream, Opening::First).go_to_end(count, Aim::Nothing)?;
    Ok(count)
}

// ---- one row

// Whether reading may stand there, in a stream of so many bytes.
#[tactic(auto, unfolding(crate::specs::Calls::may_stand))]
fn may_stand(room: usize, at: Cursor) -> bool
    ensures { result ≡ may_stand room at }
{
    if MacaqueV::MOST_VALUES < at.count {
        return false;
    }
    if 45 * at.count < at.place {
        return false;
    }
    let zeros = (at.lead as u64) + (at.trail as u64);
    ((at.place + 7) / 8 <= room) & ((at.lead == MacaqueV::OPENING_LEADING) | (zeros < 32))
}

// What the row says of a value that was read from where `from` stands to `next`.
fn row_between(from: Source, next: Cursor) -> Fields
    requires { from.at.place ≤ next.place }
    ensures { result ≡ row_between from.entry.bytes.now from.entry.at next }
{
    let at = from.at;
    let ahead = decode::look(from.bytes, at.place);
    let kind = kind_of(at.count == 0, ahead);
    let bits = next.place - at.place;
    Fields {
        kind,
        lead: next.lead,
        bits,
        value: next.last,
    }
}

// The kind of the value that the bits ahead begin with: `0` keeps the window, `10` repeats, `11` sets a window.
fn kind_of(raw: bool, ahead: Ahead) -> Kind
    ensures { result ≡ kind_read raw (word_bits ahead.word ahead.left) }
{
    if raw {
        return Kind::Raw;
    }
    if ahead.left < 1 {
        return Kind::Raw;
    }
    let head = ahead.word >> 62;
    if head < 2 {
        return Kind::Keep;
    }
    if ahead.left < 2 {
        return Kind::Raw;
    }
    if head == 2 {
        return Kind::Same;
    }
    Kind::New
}
