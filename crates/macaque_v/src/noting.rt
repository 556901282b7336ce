// The entries of a place table, as the writer notes them: where the next one is due, and its words.
ghost use Rattle.std.specs.Prelude.{◌≡◌, cond, [], ◌∷◌, ◌+◌, ◌-◌, ◌/◌, ◌≤◌, ◌<◌, eqb, length};
ghost use Rattle.models.specs.Limits.{most_values};
ghost use Rattle.places.specs.Table.{spacing};
ghost use Rattle.places.specs.Calls.{entries_lent, laid_entries};
ghost use Rattle.macaque_v.specs.Inner.Noting.{DueAt, entry_in, noted_by};

use crate::write::Pen;

// How many values lie between two entries, and how many words an entry takes.
pub const SPACING: usize = 64;

pub const WORDS: usize = 4;

// Which of the values behind `count` others is the first with an entry, be it one of the n or not; n where none is noted.
pub fn first_due(count: usize, n: usize, note: bool) -> usize
    requires { count + n ≤ most_values }
    ensures { DueAt note count n 0 result }
{
    if note {
        return (SPACING - 1) - (count + (SPACING - 1)) % SPACING;
    }
    n
}

// The entry of where the pen stands, before value i of n behind `count` others, where i is `to`, the next that has one; and
// which is the next then, or n where it is none of them.
pub fn noted(
    table: &mut [u64],
    pen: Pen,
    raw: bool,
    count: usize,
    i: usize,
    to: usize,
    n: usize,
) -> usize
    requires { (count + n ≤ most_values) × (i < n) × (i ≡ to → (count + i) / spacing < entries_lent (length table.old)) }
    ensures next { result ≡ cond (eqb i to) ((i + spacing) - ((i + spacing) - n)) to }
    ensures words { table.new ≡ cond (eqb i to) (noted_by raw pen ((count + i) / spacing) table.old) table.old }
{
    if i != to {
        return to;
    }
    let last = last_before(raw, pen.last);
    let k = (count + i) / SPACING;
    put_entry(table, k, pen.place, last, pen.lead, pen.trail);
    n.min(i + SPACING)
}

// Entry k into the table: the place before its value, the last value kept there and the window.
// (A function of its own in the machine code too: inlined, its copy leaves the loop of a write fewer registers for each value.)
#[inline(never)]
pub fn put_entry(table: &mut [u64], k: usize, place: usize, last: u64, lead: u32, trail: u32)
    requires { k < entries_lent (length table.old) }
    ensures { table.new ≡ laid_entries table.old k (entry_in place last lead trail ∷ []) }
{
    let at = WORDS * k;
    table[at..at + WORDS].copy_from_slice(&[place as u64, last, lead as u64, trail as u64]);
}

// The last value kept before the next one; before a raw one there is none, and 0 stands for it.
fn last_before(raw: bool, last: u32) -> u64
    ensures { result ≡ cond raw 0 last }
{
    if raw {
        return 0;
    }
    last as u64
}
