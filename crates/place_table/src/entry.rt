// The entries of a lent table: how many a count asks for, and one of them in its words.
ghost use Rattle.std.specs.Prelude.{◌≡◌, true, ◌+◌, ◌*◌, ◌/◌, ◌%◌, ◌^◌, ◌≤◌, ◌<◌, length};
ghost use Rattle.std.proofs.Math.ListN.{get_elem?};
ghost use Rattle.models.specs.Limits.{most_values};
ghost use Rattle.stream.specs.Format.{macaque, window_in, leaves_a_bit};
ghost use Rattle.places.specs.Table.{spacing, entries_for, same_entry, may_start};
ghost use Rattle.places.specs.Calls.{entries_lent, entry_at, table_in};
ghost use Rattle.stream.specs.Calls.{lent_bytes};
ghost use Rattle.place_table.specs.Inner.Range.{here_of, cursor_in};

use macaque_v::noting::{SPACING, WORDS};
use macaque_v::read_run::Cursor;
use macaque_v::{MacaqueV, write};

// How many entries a count asks for.
pub fn entries_for(count: usize) -> usize
    ensures { result ≡ entries_for count }
{
    count.div_ceil(SPACING)
}

// Whether the entry for where reading stands says that it stands there.
pub fn says(table: &[u64], at: Cursor) -> bool
    requires { (at.count ≤ most_values) × (at.count / spacing < entries_lent (length table.now)) }
    ensures { result ≡ same_entry (entry_at table.now (at.count / spacing)) (here_of at) }
{
    let i = WORDS * (at.count / SPACING);
    (table[i] == (at.place as u64))
        && (table[i + 1] == (at.last as u64))
        && (table[i + 2] == (at.lead as u64))
        && (table[i + 3] == (at.trail as u64))
}

// Whether a range may be read from entry i: it is in use, its last value is of 32 bits, its place is in the stream's bits, and its window is the
// opening one or leaves a bit.
pub fn may_start(bytes: usize, table: &[u64], entries: usize, i: usize) -> bool
    requires { entries ≤ entries_lent (length table.now) }
    ensures { result ≡ may_start macaque (8 * lent_bytes bytes) (get_elem? (table_in table.now entries) i) }
{
    if entries <= i {
        return false;
    }
    let at = WORDS * i;
    let lead = table[at + 2];
    let trail = table[at + 3];
    let opening = (lead == (MacaqueV::OPENING_LEADING as u64))
        & (trail == (MacaqueV::OPENING_TRAILING as u64));
    (table[at + 1] < 0x1_0000_0000)
        & ((table[at] <= 8 * (write::lent_bytes(bytes) as u64))
            & (opening | leaves_a_bit(lead, trail)))
}

fn leaves_a_bit(lead: u64, trail: u64) -> bool
    ensures { result ≡ leaves_a_bit macaque (window_in lead trail) }
{
    (lead <= 31) && (trail <= 31 - lead)
}

// Where reading stands before the value of entry i.
pub fn cursor_at(table: &[u64], i: usize) -> Cursor
    requires { (i < entries_lent (length table.now)) × (spacing * i ≤ most_values) }
    ensures { result ≡ cursor_in table.now i }
{
    let at = WORDS * i;
    Cursor {
        last: low(table[at + 1]),
        lead: low(table[at + 2]),
        trail: low(table[at + 3]),
        place: table[at] as usize,
        count: SPACING * i,
    }
}

// (That of the crate `exports`, which stands above this one.)
fn low(word: u64) -> u32
    ensures { result ≡ word % 2 ^ 32 }
{
    (word % 0x1_0000_0000) as u32
}
