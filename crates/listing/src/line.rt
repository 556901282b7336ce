// The text of a line, put into a lent array from a place on: each function answers the place behind what it put.
ghost use Rattle.std.specs.Prelude.{◌≡◌, [], ◌∷◌, ◌++◌, ◌+◌, ◌≤◌, ◌<◌, length, take};
ghost use Rattle.std.proofs.lemmas.List.Edits.{sets};
ghost use Rattle.models.specs.Refusals.{fault_of};
ghost use Rattle.listing.specs.Text.{digit_text, digits_of, places as places_of, decimal, hexadecimal, kind_word, lead_text, field, row_text, refused_text, laid};
ghost use Rattle.listing.specs.Inner.Lines.{Put};

use crate::{Fields, Kind};
use models::{Fault, Refusal};

// ---- a row: 77 bytes at the most

pub fn row(n: usize, row: Fields, line: &mut [u8; 80]) -> usize
    ensures length { result ≡ length (row_text n row) }
    ensures text { line.new ≡ laid (row_text n row) line.old }
{
    let kind = row.kind;
    let a = number(n, b' ', line, 0);
    let b = kind_word(kind, line, a);
    let c = lead(kind, row.lead, line, b);
    let d = number(row.bits, b' ', line, c);
    value(row.value, b'\n', line, d)
}

fn kind_word(kind: Kind, line: &mut [u8; 80], at: usize) -> usize
    requires { at ≤ 21 }
    ensures put { Put line.old at (field (kind_word kind)) line.new result }
    ensures most { result ≤ at + 5 }
{
    let text: &[u8] = match kind {
        Kind::Raw => b"raw ",
        Kind::Same => b"same ",
        Kind::New => b"new ",
        Kind::Keep => b"keep ",
    };
    word(text, line, at)
}

fn lead(kind: Kind, lead: u32, line: &mut [u8; 80], at: usize) -> usize
    requires { at ≤ 26 }
    ensures put { Put line.old at (field (lead_text kind lead)) line.new result }
    ensures most { result ≤ at + 21 }
{
    match kind {
        Kind::Raw | Kind::Same => word(b"- ", line, at),
        Kind::New | Kind::Keep => number(lead as usize, b' ', line, at),
    }
}

// ---- a refusal: 71 bytes at the most

pub fn refused(cause: Refusal, line: &mut [u8; 80], at: usize) -> usize
    requires { at ≤ 9 }
    ensures { Put line.old at (refused_text (fault_of cause)) line.new result }
{
    let fault = Fault::from(cause);
    let a = word(b"refused ", line, at);
    let b = number(fault.number as usize, b' ', line, a);
    let c = number(fault.value as usize, b' ', line, b);
    number(fault.place, b'\n', line, c)
}

// ---- what is printed of a line

// The first n bytes of a line.
pub fn front<'a>(line: &'a [u8; 80], n: usize) -> &'a [u8]
    ensures { result.now ≡ take n line.now }
{
    &line[..n.min(80)]
}

// ---- words and numbers

pub fn word(bytes: &[u8], line: &mut [u8; 80], at: usize) -> usize
    requires { at + length bytes.now ≤ 80 }
    ensures { Put line.old at bytes.now line.new result }
{
    let end = at + bytes.len();
    line[at..end].copy_from_slice(bytes);
    end
}

// A number in decimal digits, and the byte behind them.
pub fn number(n: usize, end: u8, line: &mut [u8; 80], at: usize) -> usize
    requires { at + 21 ≤ 80 }
    ensures put { Put line.old at (decimal n ++ (end ∷ [])) line.new result }
    ensures most { result ≤ at + 21 }
{
    let k = places(n);
    digits(10, k, n, line, at);
    line[at + k] = end;
    at + k + 1
}

// A value in hexadecimal digits, and the byte behind them.
pub fn value(value: u32, end: u8, line: &mut [u8; 80], at: usize) -> usize
    requires { at ≤ 71 }
    ensures put { Put line.old at (hexadecimal value ++ (end ∷ [])) line.new result }
    ensures most { result ≤ at + 9 }
{
    digits(16, 8, value as usize, line, at);
    line[at + 8] = end;
    at + 9
}

// How many decimal digits a number has.
fn places(n: usize) -> usize
    ensures { (result ≡ places_of n) × (result ≤ 20) }
{
    n.checked_ilog10().unwrap_or(0) as usize + 1
}

// The last k digits of n to the base, the last of them first.
fn digits(base: usize, k: usize, n: usize, line: &mut [u8; 80], at: usize)
    requires { (0 < base) × (base ≤ 16) × (at + k ≤ 80) }
    ensures { line.new ≡ sets line.old at (digits_of base k n) }
{
    let mut rest = n;
    for i in (0..k).rev() {
        line[at + i] = digit(rest % base);
        rest /= base;
    }
}

fn digit(d: usize) -> u8
    requires { d < 16 }
    ensures { result ≡ digit_text d }
{
    match d {
        0..=9 => b'0' + d as u8,
        _ => b'A' + (d - 10) as u8,
    }
}
