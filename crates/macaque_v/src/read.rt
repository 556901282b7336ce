// The reading calls: a stream's values, their sum, and a writer that goes on behind the first k of them.
// A stream is checked whole before lent memory is touched. (Its bytes, how many values are in them and how it opens come apart, as the C interface hands
// them over: a count is no length of the bytes.)
ghost use Rattle.std.specs.Prelude.{◌≡◌, ◌+◌, ◌^◌, ◌≤◌, ◌<◌, length, take};
ghost use Rattle.models.specs.Answers.{verdict};
ghost use Rattle.models.specs.Calls.{said_by};
ghost use Rattle.models.specs.Limits.{most_values};
ghost use Rattle.stream.specs.Read.{buffer_after};
ghost use Rattle.macaque_v.specs.State.{is_first};
ghost use Rattle.macaque_v.specs.Read.{start_of, grid_causes, drawn, grid_answer, grid_memory, sum_answer};
ghost use Rattle.macaque_v.specs.Inner.Read.{values_from, drawn_at, end_where};
ghost use Rattle.macaque_v.specs.Read.{reopen_causes, reopen_answer, reopen_memory};
ghost use Rattle.macaque_v.specs.Inner.Read.{reopening, resumed, OpensAs, EndsIn, opened_behind, cut_behind};

use crate::read_run::{Aim, Cursor, Source, Tally};
use crate::{MacaqueV, Opening, read_run, write};
use models::{ErrorBound, Refusal};

// ---- the public calls

// Draws the values of a stream, `count` of them, into the first places of `out`.
pub fn grid(bytes: &[u8], count: usize, opening: Opening, out: &mut [u32]) -> Result<(), Refusal>
    ensures answer { said_by result ≡ grid_answer bytes.now count opening (length out.old) }
    ensures values { out.new ≡ grid_memory bytes.now count opening out.old }
{
    judge_grid(count, out.len())?;
    Source::open(bytes, opening).draw(count, 0, out, true)
}

// The sum of the values of a stream, `count` of them.
pub fn sum(bytes: &[u8], count: usize, opening: Opening) -> Result<u32, Refusal>
    ensures { said_by result ≡ sum_answer bytes.now count opening }
{
    if MacaqueV::MOST_VALUES < count {
        return Err(Refusal::OverLimit);
    }
    let (_, tally) = Source::open(bytes, opening).go_to_end(count, Aim::Sum)?;
    Ok(numbers::bits_of_f32(tally.sum))
}

impl MacaqueV {
    // The writer behind the first k of the `count` values in the buffer's first `used` bytes. The bits behind them in the byte that they end in
    // are zeroed.
    pub fn reopen(
        buffer: &mut [u8],
        used: usize,
        count: usize,
        k: usize,
        opening: Opening,
        error_bound: ErrorBound,
    ) -> Result<MacaqueV, Refusal>
        ensures answer { said_by result ≡ reopen_answer buffer.old used count k opening error_bound }
        ensures bytes { buffer.new ≡ reopen_memory buffer.old used count k opening error_bound }
    {
        judge_reopen(error_bound, buffer.len(), used, count, k)?;
        resume(buffer, used, count, k, opening, error_bound)
    }
}

// ---- the causes of refusal, in their order

#[tactic(auto, unfolding(models::specs::Answers::judge))]
fn judge_grid(count: usize, room: usize) -> Result<(), Refusal>
    ensures { said_by result ≡ verdict (grid_causes count room) }
{
    if MacaqueV::MOST_VALUES < count {
        return Err(Refusal::OverLimit);
    }
    if room < count {
        return Err(Refusal::OutputTooShort);
    }
    Ok(())
}

#[tactic(auto, unfolding(models::specs::Answers::judge))]
pub fn judge_reopen(
    error_bound: ErrorBound,
    room: usize,
    used: usize,
    count: usize,
    k: usize,
) -> Result<(), Refusal>
    ensures { said_by result ≡ verdict (reopen_causes error_bound room used count k) }
{
    if !models::bound_allowed(error_bound) {
        return Err(Refusal::BoundNotAllowed);
    }
    if MacaqueV::MOST_VALUES < count {
        return Err(Refusal::OverLimit);
    }
    if (count < k) | (room < used) {
        return Err(Refusal::CountsDisagree);
    }
    Ok(())
}

// ---- the start of a stream

pub fn is_first(opening: Opening) -> bool
    ensures { result ≡ is_first opening }
{
    match opening {
        Opening::First => true,
        Opening::On(_) => false,
    }
}

pub fn start(opening: Opening) -> Cursor
    ensures { (result ≡ start_of opening) × (result.last < 2 ^ 32) }
{
    Cursor {
        last: write::first_last(opening),
        lead: MacaqueV::OPENING_LEADING,
        trail: MacaqueV::OPENING_TRAILING,
        place: 0,
        count: 0,
    }
}

impl<'a> Source<'a> {
    // Before the first value of a stream.
    pub fn open(bytes: &'a [u8], opening: Opening) -> Source<'a>
        ensures { (result.bytes.now ≡ bytes.now) × (result.first ≡ is_first opening) × (result.at ≡ start_of opening) }
    {
        Source {
            bytes,
            first: is_first(opening),
            at: start(opening),
        }
    }
}

// ---- drawing

impl<'a> Source<'a> {
    // The next n values, to the places of `out` from i on, a block at a time: what stands behind a block is read and found right before the block
    // is copied. The array has 28 places more than a block takes. They are the stream's last ones where `whole` is true, and nothing may follow them then.
    pub fn draw(self, n: usize, i: usize, out: &mut [u32], whole: bool) -> Result<(), Refusal>
        requires { (self.at.count + n ≤ most_values) × (i + n ≤ length out.old) }
        ensures answer { said_by result ≡ drawn (values_from whole self.entry.first self.entry.bytes.now self.entry.at n) }
        ensures values { out.new ≡ drawn_at i out.old (values_from whole self.entry.first self.entry.bytes.now self.entry.at n) }
    {
        let mut values = [0u32; 1052];
        let k = n.min(1024);
        let to = self.fill(k, &mut values)?;
        if k < n {
            self.behind(to).draw(n - k, i + k, out, whole)?;
        } else {
            self.behind(to).judge_behind(whole)?;
        }
        read_run::copy(&values, k, i, out);
        Ok(())
    }

    // What may follow the last value: nothing, where it is the stream's last. (A closure for it would be handed down the recursion in place of a truth.)
    fn judge_behind(self, whole: bool) -> Result<(), Refusal>
        requires { self.at.count ≤ most_values }
        ensures { said_by result ≡ end_where whole self.entry.bytes.now self.entry.at }
    {
        if whole {
            return self.judge_end();
        }
        Ok(())
    }
}

// ---- reopening

// The state after the first k values, with the least, the greatest and the sum of them. The values behind them are read too.
fn state_at(
    bytes: &[u8],
    count: usize,
    k: usize,
    opening: Opening,
) -> Result<(Cursor, Tally), Refusal>
    requires { (k ≤ count) × (count ≤ most_values) }
    ensures { OpensAs (reopening bytes.now count k opening) bytes.now result }
{
    let source = Source::open(bytes, opening);
    let (at, tally) = source.go_through(k, Aim::All)?;
    source.behind(at).go_to_end(count - k, Aim::Nothing)?;
    Ok((at, tally))
}

fn resume(
    buffer: &mut [u8],
    used: usize,
    count: usize,
    k: usize,
    opening: Opening,
    error_bound: ErrorBound,
) -> Result<MacaqueV, Refusal>
    requires { (k ≤ count) × (count ≤ most_values) × (used ≤ length buffer.old) }
    ensures answer { said_by result ≡ resumed error_bound (is_first opening) (reopening (take used buffer.old) count k opening) }
    ensures bytes { buffer.new ≡ buffer_after (reopening (take used buffer.old) count k opening) buffer.old }
{
    let found = state_at(&buffer[..used], count, k, opening);
    open_behind(buffer, found, opening, error_bound)
}

// The writer where going through the buffer's first bytes has ended; the bits behind it in the byte that this cuts are zeroed.
pub fn open_behind(
    buffer: &mut [u8],
    found: Result<(Cursor, Tally), Refusal>,
    opening: Opening,
    error_bound: ErrorBound,
) -> Result<MacaqueV, Refusal>
    requires { EndsIn buffer.old found }
    ensures answer { said_by result ≡ opened_behind error_bound (is_first opening) found }
    ensures bytes { buffer.new ≡ cut_behind found buffer.old }
{
    let (at, tally) = found?;
    bits::cut(buffer, at.place);
    Ok(MacaqueV {
        error_bound,
        min_value: tally.min,
        max_value: tally.max,
        last_value: at.last,
        last_leading_zero_bits: at.lead,
        last_trailing_zero_bits: at.trail,
        with_first: is_first(opening),
        place: at.place,
        length: at.count,
        sum: tally.sum,
    })
}
