// The lines of a comparison, put into a lent array: each function answers the place behind what it put.
ghost use Rattle.std.specs.Prelude.{◌≡◌, [], ◌∷◌, ◌++◌, ◌+◌, ◌≤◌, length};
ghost use Rattle.listing.specs.Text.{field};
ghost use Rattle.listing.specs.Inner.Lines.{Put};
ghost use Rattle.comparing.specs.Text.{side_word, entry_text, difference_text, differ_text, laid};

use crate::{Difference, Side};
use listing::line;

// The line of a difference: 39 bytes at the most.
pub fn difference(d: Difference, line: &mut [u8; 80]) -> usize
    ensures length { result ≡ length (difference_text d) }
    ensures text { line.new ≡ laid (difference_text d) line.old }
{
    let left = d.left;
    let right = d.right;
    let a = line::number(d.index, b' ', line, 0);
    let b = entry(left, b' ', line, a);
    entry(right, b'\n', line, b)
}

// A value or a dash, and the byte behind it.
fn entry(e: Option<u32>, end: u8, line: &mut [u8; 80], at: usize) -> usize
    requires { at ≤ 71 }
    ensures put { Put line.old at (entry_text e ++ (end ∷ [])) line.new result }
    ensures most { result ≤ at + 9 }
{
    match e {
        None => {
            line[at] = b'-';
            line[at + 1] = end;
            at + 2
        }
        Some(v) => line::value(v, end, line, at),
    }
}

// The last line, by how many differences there are.
#[tactic(auto, unfolding(crate::specs::Text::differ_text))]
pub fn differ(found: usize, line: &mut [u8; 80]) -> usize
    ensures length { result ≡ length (differ_text found) }
    ensures text { line.new ≡ laid (differ_text found) line.old }
{
    let at = line::word(b"differ ", line, 0);
    line::number(found, b'\n', line, at)
}

// The side's word, at the front of a line.
pub fn side(side: Side, line: &mut [u8; 80]) -> usize
    ensures put { Put line.old 0 (field (side_word side)) line.new result }
    ensures most { result ≤ 6 }
{
    match side {
        Side::Left => line::word(b"left ", line, 0),
        Side::Right => line::word(b"right ", line, 0),
    }
}
