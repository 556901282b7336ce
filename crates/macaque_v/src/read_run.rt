// Reading value after value: into an array, or through a small one for what is taken in of the values on the way.
ghost use Rattle.std.specs.Prelude.{◌≡◌, ◌++◌, ◌+◌, ◌-◌, ◌*◌, ◌/◌, ◌^◌, ◌<◌, ◌≤◌, length, take, drop, replicate};
ghost use Rattle.models.specs.Limits.{most_values};
ghost use Rattle.bits.specs.Bits.{bits_of};
ghost use Rattle.models.specs.Calls.{said_by};
ghost use Rattle.models.specs.Answers.{fault_in};
ghost use Rattle.models.specs.Refusals.{fault_of};
ghost use Rattle.stream.specs.Format.{gather_from};
ghost use Rattle.stream.specs.Read.{leftover};
ghost use Rattle.coding.specs.Inner.Ahead.{RepeatsAt, stop_number};
ghost use Rattle.macaque_v.specs.State.{gather_sum, gather_known, mode_of};
ghost use Rattle.macaque_v.specs.ReadRun.{end_said};
ghost use Rattle.macaque_v.specs.Inner.ReadRun.{ReadableAt, StrideSays, NextSays, AtOnce, onward, ReadsOn, FillSays, WalkSays, WholeSays, known_in, tally_of, tallied, says_behind};

use crate::{MacaqueV, span, total};
use coding::decode;
use coding::decode::Stop;
use models::Refusal;

// Where reading stands: behind so many values and bits, with the last value and its window.
#[derive(Clone, Copy)]
pub struct Cursor {
    pub last: u32,
    pub lead: u32,
    pub trail: u32,
    pub place: usize,
    pub count: usize,
}

// A stream, whether its first value stands in full, and where reading stands in it: from there it may be read on.
#[derive(Clone, Copy)]
pub struct Source<'a> {
    pub bytes: &'a [u8],
    pub first: bool,
    pub at: Cursor,
    pub ghost readable: { ReadableAt bytes.now at },
}

impl<'a> Source<'a> {
    // The same stream, where reading stands at `at`.
    pub fn behind(self, at: Cursor) -> Source<'a>
        requires { ReadableAt self.bytes.now at }
        ensures { (result.bytes.now ≡ self.entry.bytes.now) × (result.first ≡ self.entry.first) × (result.at ≡ at) }
    {
        Source {
            bytes: self.bytes,
            first: self.first,
            at,
        }
    }

    // ---- into an array

    // One value more, or the refusal with its place.
    pub fn next(self) -> Result<Cursor, Refusal>
        requires { self.at.count < most_values }
        ensures { NextSays self.entry.first self.entry.bytes.now self.entry.at result }
    {
        self.one_more().map_err(|s| refusal_of(s, self.at))
    }

    // One value more, by its code: the step of every reading call. (`read_on` and `repeats` take what follows in the same window at once.)
    // What stops it is told without its place: that is where reading stood.
    fn one_more(self) -> Result<Cursor, Stop>
        requires { self.at.count < most_values }
        ensures { StrideSays self.entry.first self.entry.bytes.now self.entry.at result }
    {
        let at = self.at;
        let raw = self.first & (at.count == 0);
        let set = at.lead != MacaqueV::OPENING_LEADING;
        let ahead = decode::look(self.bytes, at.place);
        let got = ahead.decode(raw, set, at.lead, at.trail, at.last)?;
        Ok(Cursor {
            last: got.value,
            lead: got.lead,
            trail: got.trail,
            place: at.place + got.used,
            count: at.count + 1,
        })
    }

    // The next n values, into the first places of `out`. Those behind them may change too: callers hand over arrays of their own.
    pub fn fill(self, n: usize, out: &mut [u32]) -> Result<Cursor, Refusal>
        requires { (self.at.count + n ≤ most_values) × (n ≤ length out.old) }
        ensures { FillSays self.entry.first self.entry.bytes.now self.entry.at n out.old out.new result }
    {
        let mut at = self.at;
        let mut i: usize = 0;
        // A turn takes a value and what follows it in the same window, so no range counts the turns.
        while i < n {
            match self.behind(at).one_more() {
                Err(s) => {
                    return Err(refusal_of(s, at));
                }
                Ok(to) => {
                    let same = to.place == at.place + 2;
                    out[i] = to.last;
                    at = self.behind(to).go_on(same, i + 1, n, out);
                    i = i + 1 + (at.count - to.count);
                }
            }
        }
        Ok(at)
    }

    // Values in the last window and repeats, as long as they come; in the last bytes of the stream, behind a value of two bits (`same`), repeats alone.
    fn go_on(self, same: bool, i: usize, n: usize, out: &mut [u32]) -> Cursor
        requires { (0 < self.at.count) × (self.at.count + n ≤ most_values + i) × (i ≤ n) × (n ≤ length out.old) }
        ensures { ReadsOn self.entry.first self.entry.bytes.now self.entry.at i n out.old out.new result }
    {
        if same & (self.bytes.len() - self.at.place / 8 < 8) {
            return self.last_repeats(i, n, out);
        }
        self.read_on(i, n, out)
    }

    // The values in the last window and the repeats that stand behind a value, as long as they come, into the places from i on.
    fn read_on(self, i: usize, n: usize, out: &mut [u32]) -> Cursor
        requires { (0 < self.at.count) × (self.at.count + n ≤ most_values + i) × (i ≤ n) × (n ≤ length out.old) }
        ensures { ReadsOn self.entry.first self.entry.bytes.now self.entry.at i n out.old out.new result }
    {
        let bytes = self.bytes;
        let from = self.at;
        let lead = from.lead;
        let trail = from.trail;
        if lead == MacaqueV::OPENING_LEADING {
            return self.repeats(i, n, out);
        }
        let step = (33 - lead - trail) as usize;
        let mut last = from.last;
        let mut place = from.place;
        let mut j = i;
        // A turn takes a value or some repeats.
        while j < n {
            let word = decode::word_ahead(bytes, place);
            if (word >> 63) == 0 {
                last = last ^ decode::in_place(word, lead, trail);
                out[j] = last;
                place += step;
                j += 1;
            } else {
                let k = at_once(word, out.len() - j, n - j);
                if k == 0 {
                    return further(from, last, place, j - i);
                }
                spread(out, j, last);
                place += 2 * k;
                j += k;
            }
        }
        further(from, last, place, j - i)
    }

    // The repeats that stand behind a value, 28 at most and where `out` has room for so many, into the places from i on.
    fn repeats(self, i: usize, n: usize, out: &mut [u32]) -> Cursor
        requires { (0 < self.at.count) × (self.at.count + n ≤ most_values + i) × (i ≤ n) × (n ≤ length out.old) }
        ensures { ReadsOn self.entry.first self.entry.bytes.now self.entry.at i n out.old out.new result }
    {
        let k = at_once(
            decode::word_ahead(self.bytes, self.at.place),
            out.len() - i,
            n - i,
        );
        self.take_repeats(k, i, n, out)
    }

    // The same where the stream has fewer than eight bytes from the place on.
    fn last_repeats(self, i: usize, n: usize, out: &mut [u32]) -> Cursor
        requires { (0 < self.at.count) × (self.at.count + n ≤ most_values + i) × (i ≤ n) × (n ≤ length out.old) × (length self.bytes.now < self.at.place / 8 + 8) }
        ensures { ReadsOn self.entry.first self.entry.bytes.now self.entry.at i n out.old out.new result }
    {
        let ahead = decode::look_at_end(self.bytes, self.at.place);
        let k = at_once(ahead.word, out.len() - i, (ahead.left / 2).min(n - i));
        self.take_repeats(k, i, n, out)
    }

    // The k repeats that stand at the place, into the places from i on; what is spread behind them is filled later, or lies behind what was asked for.
    fn take_repeats(self, k: usize, i: usize, n: usize, out: &mut [u32]) -> Cursor
        requires { (0 < self.at.count) × (self.at.count + n ≤ most_values + i) × (i + k ≤ n) × RepeatsAt self.bytes.now self.at.place k × (0 < k → i + 28 ≤ length out.old) }
        ensures { ReadsOn self.entry.first self.entry.bytes.now self.entry.at i n out.old out.new result }
    {
        let at = self.at;
        if k == 0 {
            return at;
        }
        spread(out, i, at.last);
        further(at, at.last, at.place + 2 * k, k)
    }

    // ---- through a small array

    // The next n values, and what is taken in of them. The array has 28 places more than are asked for, so that repeats are taken at once up to the last.
    pub fn go_through(self, n: usize, aim: Aim) -> Result<(Cursor, Tally), Refusal>
        requires { self.at.count + n ≤ most_values }
        ensures { WalkSays self.entry.first self.entry.bytes.now self.entry.at n aim result }
    {
        let mut values = [0u32; 1052];
        let mut at = self.at;
        let mut tally = Tally {
            sum: 0.0,
            min: models::FRESH_BITS,
            max: models::FRESH_BITS,
        };
        let mut read: usize = 0;
        // The last part is shorter than the others: a range in steps of 1024 would end behind it.
        while read < n {
            let k = (n - read).min(1024);
            let to = self.behind(at).fill(k, &mut values)?;
            tally = taken_in(aim, self.first, at.count, tally, &values[..k]);
            at = to;
            read += k;
        }
        Ok((at, tally))
    }

    // A stream's last n values: nothing may follow them.
    pub fn go_to_end(self, n: usize, aim: Aim) -> Result<(Cursor, Tally), Refusal>
        requires { self.at.count + n ≤ most_values }
        ensures { WholeSays self.entry.first self.entry.bytes.now self.entry.at n aim result }
    {
        let (to, tally) = self.go_through(n, aim)?;
        self.behind(to).judge_end()?;
        Ok((to, tally))
    }

    // Whether the stream ends where reading stands. (Inlined, else the reader's call for C, which asks nothing else, takes two thirds longer.)
    #[inline(always)]
    pub fn judge_end(self) -> Result<(), Refusal>
        requires { self.at.count ≤ most_values }
        ensures { said_by result ≡ end_said self.entry.bytes.now self.entry.at }
    {
        let value = self.at.count as u32;
        match left_behind(self.bytes, self.at.place) {
            None => Ok(()),
            Some(place) => Err(Refusal::Leftover { value, place }),
        }
    }
}

// ---- the steps

// The refusal that a stop is: of the value behind those that were read, whose code begins where reading stands.
fn refusal_of(stop: Stop, at: Cursor) -> Refusal
    requires { at.count ≤ most_values }
    ensures { fault_of result ≡ fault_in (stop_number stop) at.count at.place }
{
    let value = at.count as u32;
    let place = at.place;
    match stop {
        Stop::EndsEarly => Refusal::EndsEarly { value, place },
        Stop::NoWindow => Refusal::NoWindow { value, place },
        Stop::WindowNotAllowed => Refusal::WindowNotAllowed { value, place },
    }
}

// Where reading stands behind so many values more in the same window.
fn further(from: Cursor, last: u32, place: usize, more: usize) -> Cursor
    requires { from.count + more ≤ most_values }
    ensures { result ≡ onward from last place more }
{
    Cursor {
        last,
        place,
        count: from.count + more,
        ..from
    }
}

// How many repeats a word begins with, and no more than `left`; none where there is no room for 28 values.
fn at_once(word: u64, room: usize, left: usize) -> usize
    ensures { AtOnce word room left result }
{
    if room < 28 {
        return 0;
    }
    decode::at_top(word).min(left)
}

// A value into 28 places.
fn spread(out: &mut [u32], i: usize, value: u32)
    requires { i + 28 ≤ length out.old }
    ensures { out.new ≡ take i out.old ++ (replicate 28 value ++ drop (i + 28) out.old) }
{
    out[i..i + 28].fill(value);
}

// The first n values of `values`, to the places of `out` from i on.
pub fn copy(values: &[u32], n: usize, i: usize, out: &mut [u32])
    requires { (n ≤ length values.now) × (i + n ≤ length out.old) }
    ensures { out.new ≡ take i out.old ++ (take n values.now ++ drop (i + n) out.old) }
{
    out[i..i + n].copy_from_slice(&values[..n]);
}

// Where what follows a place begins, if anything does: at the first set padding bit, else at the first further byte's first bit.
fn left_behind(bytes: &[u8], place: usize) -> Option<usize>
    requires { (place ≤ 8 * length bytes.now) × (place + 7 < 2 ^ 64) }
    ensures { says_behind result ≡ leftover place (drop place (bits_of bytes.now)) }
{
    let whole = place.div_ceil(8);
    let padding = bits::get(bytes, place, 8 * whole - place);
    if padding != 0 {
        return Some(8 * whole - ((64 - u64::leading_zeros(padding)) as usize));
    }
    if whole < bytes.len() {
        return Some(8 * whole);
    }
    None
}

// ---- what is taken in

// What is taken in of the values: nothing, their sum, or all that a writer's state knows of them. (A function in its place would be no plainer: what
// `tallied` says in three cases, each of its callers would have to say of it.)
#[derive(Clone, Copy)]
pub enum Aim {
    Nothing,
    Sum,
    All,
}

#[derive(Clone, Copy)]
pub struct Tally {
    pub sum: f32,
    pub min: u32,
    pub max: u32,
}

// The values, behind `count` others.
fn taken_in(aim: Aim, first: bool, count: usize, tally: Tally, values: &[u32]) -> Tally
    requires { count + length values.now ≤ most_values }
    ensures { result ≡ tallied aim (mode_of first) count tally values.now }
{
    match aim {
        Aim::Nothing => tally,
        Aim::Sum => Tally {
            sum: added(first, count, tally.sum, values),
            min: tally.min,
            max: tally.max,
        },
        Aim::All => all_taken_in(first, count, tally, values),
    }
}

fn added(first: bool, count: usize, sum: f32, values: &[u32]) -> f32
    requires { count + length values.now ≤ most_values }
    ensures { result ≡ gather_from gather_sum (mode_of first) count sum values.now }
{
    if values.is_empty() {
        return sum;
    }
    let mut total = total::begun(first & (count == 0), sum);
    for &value in values {
        total = total::joined(total, value);
    }
    total
}

// The sum, the least and the greatest in one loop: none of the three waits for another.
fn all_taken_in(first: bool, count: usize, tally: Tally, values: &[u32]) -> Tally
    requires { count + length values.now ≤ most_values }
    ensures { result ≡ tally_of (gather_from gather_known (mode_of first) count (known_in tally) values.now) }
{
    let Some(&last) = values.last() else {
        return tally;
    };
    let mut ends = span::begun(tally.min, tally.max);
    let mut total = total::begun(first & (count == 0), tally.sum);
    for &value in values {
        ends = span::joined(ends, value);
        total = total::joined(total, value);
    }
    Tally {
        sum: total,
        min: span::least(ends, tally.min, last),
        max: span::greatest(ends, tally.max, last),
    }
}
