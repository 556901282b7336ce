// Going through a stream: beside its table, to note its entries, or behind an entry.
ghost use Rattle.std.specs.Prelude.{◌≡◌, ◌+◌, ◌≤◌, length};
ghost use Rattle.models.specs.Calls.{said_by};
ghost use Rattle.models.specs.Limits.{most_values};
ghost use Rattle.stream.specs.Calls.{drawn, drawn_in};
ghost use Rattle.places.specs.Table.{spacing, entries_for};
ghost use Rattle.places.specs.Calls.{entries_lent, laid_entries};
ghost use Rattle.place_table.specs.Inner.Range.{compared, values_behind};
ghost use Rattle.place_table.specs.Inner.Rescue.{own_entries, ReadsFirst, FoundIn, noted_found};

use crate::entry;
use macaque_v::read_run::{Cursor, Source, Tally};
use macaque_v::{Opening, noting};
use models::Refusal;

// The stream beside a table of as many entries as its count asks for: each is looked at before the values that it stands before. What the stream
// itself is refused for comes first.
pub fn compare(bytes: &[u8], count: usize, opening: Opening, table: &[u64]) -> Result<(), Refusal>
    requires { (count ≤ most_values) × (entries_for count ≤ entries_lent (length table.now)) }
    ensures { said_by result ≡ compared bytes.now count opening table.now }
{
    let source = Source::open(bytes, opening);
    let mut values = [0u32; 92];
    let mut at = source.at;
    let mut same = true;
    // No range: where reading stands says how far it got.
    while at.count < count {
        same = same & entry::says(table, at);
        let k = noting::SPACING.min(count - at.count);
        at = source.behind(at).fill(k, &mut values)?;
    }
    source.behind(at).judge_end()?;
    if !same {
        return Err(Refusal::TableDoesNotMatch);
    }
    Ok(())
}

// The entries of the values that going through the bytes found, where it found some and no damage.
pub fn note_found(
    bytes: &[u8],
    found: Result<(Cursor, Tally), Refusal>,
    opening: Opening,
    table: &mut [u64],
)
    requires { FoundIn bytes.now opening table.old found }
    ensures { table.new ≡ noted_found bytes.now opening table.old found }
{
    if let Ok((at, _)) = found {
        note(bytes, at.count, opening, table);
    }
}

// The entries of the first `count` values of these bytes, into the first words of the table.
fn note(bytes: &[u8], count: usize, opening: Opening, table: &mut [u64])
    requires { ReadsFirst bytes.now opening count × (count ≤ most_values) × (entries_for count ≤ entries_lent (length table.old)) }
    ensures { table.new ≡ laid_entries table.old 0 (own_entries bytes.now opening count) }
{
    let source = Source::open(bytes, opening);
    let mut values = [0u32; 92];
    let mut at = source.at;
    // The same here.
    while at.count < count {
        let i = at.count / noting::SPACING;
        noting::put_entry(table, i, at.place, at.last as u64, at.lead, at.trail);
        let k = noting::SPACING.min(count - at.count);
        at = source.behind(at).fill(k, &mut values).unwrap();
    }
}

// The n values behind `skipped` others, to the first places of `out`.
pub fn draw_behind(from: Source, skipped: usize, n: usize, out: &mut [u32]) -> Result<(), Refusal>
    requires { (from.at.count + (skipped + n) ≤ most_values) × (skipped ≤ spacing) × (n ≤ length out.old) }
    ensures answer { said_by result ≡ drawn (values_behind from.entry.first from.entry.bytes.now from.entry.at skipped n) }
    ensures values { out.new ≡ drawn_in out.old (values_behind from.entry.first from.entry.bytes.now from.entry.at skipped n) }
{
    let mut values = [0u32; 92];
    let to = from.fill(skipped, &mut values)?;
    from.behind(to).draw(n, 0, out, false)
}
