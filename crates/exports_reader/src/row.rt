// Where a reader stands as a row of six words (specs/Row.antt): to the row, and back. A row that stands
// for no reader stands for one that the call behind refuses.
ghost use Rattle.std.specs.Prelude.{◌≡◌, true, ◌≤◌, length};
ghost use Rattle.exports_reader.specs.Row.{reader_length, reader_row, stands_for_reader, read_position, position_in};

use exports::words;
use macaque_v::MacaqueV;
use macaque_v::read_run::Cursor;
use reader::position::Position;

pub const WORDS: usize = 6;

#[tactic(auto, unfolding(crate::specs::Row::reader_row))]
pub fn position_words(p: Position) -> [u64; WORDS]
    ensures { result ≡ reader_row p }
{
    let at = p.at;
    [
        at.last as u64,
        at.lead as u64,
        at.trail as u64,
        u64::from(p.with_first),
        at.place as u64,
        at.count as u64,
    ]
}

// A row that is too short stands for no reader.
#[tactic(auto, unfolding(crate::specs::Row::stands_for_reader))]
fn stands_for_reader(row: &[u64]) -> bool
    ensures { result ≡ stands_for_reader row.now }
{
    if row.len() < WORDS {
        return false;
    }
    words::is_small(row[0]) & (words::is_small(row[1]) & (words::is_small(row[2]) & (row[3] <= 1)))
}

// The reader in a row that stands for one.
fn read_position(row: &[u64]) -> Position
    requires words { reader_length ≤ length row.now }
    requires stands { stands_for_reader row.now ≡ true }
    ensures { result ≡ read_position row.now }
{
    let at = Cursor {
        last: words::low(row[0]),
        lead: words::low(row[1]),
        trail: words::low(row[2]),
        place: row[4] as usize,
        count: row[5] as usize,
    };
    Position {
        with_first: row[3] == 1,
        at,
    }
}

// Where the reader stands that a row stands for.
#[tactic(auto, unfolding(crate::specs::Row::position_in, crate::specs::Row::stands_for_reader))]
pub fn position_in(row: &[u64]) -> Position
    ensures { result ≡ position_in row.now }
{
    if stands_for_reader(row) {
        return read_position(row);
    }
    Position {
        with_first: false,
        at: Cursor {
            last: 0,
            lead: MacaqueV::OPENING_LEADING,
            trail: MacaqueV::OPENING_TRAILING,
            place: 1,
            count: 0,
        },
    }
}
