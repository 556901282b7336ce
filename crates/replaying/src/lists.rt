// The lists of a line as memory to lend, and that memory held against what a call must leave in it.

ghost use Rattle.std.specs.Prelude.{◌≡◌, length};
ghost use Rattle.replaying.specs.Inner.Counts.{Counts};

use crate::line::{List, Marks};
use models::Fault;

// ---- how much memory a call may be lent

pub const VALUES: usize = 65_600;

pub const BYTES: usize = 20_000;

// The entries in use and the words of a table: of 65,536 values 4,096 words.
pub const TABLE: usize = 4_200;

pub const ROW: usize = 32;

// ---- the words of a list

pub fn list<'a>(all: &'a [u64], marks: &Marks, name: List) -> &'a [u64] {
    match marks[name as usize] {
        None => &all[0..0],
        Some(span) => all.get(span.from..span.to).unwrap_or(&all[0..0]),
    }
}

// What must be left of a list: the one behind the colon, or itself where none is there.
fn left<'a>(all: &'a [u64], marks: &Marks, name: List) -> &'a [u64] {
    match name.left() {
        Some(left) if marks[left as usize].is_some() => list(all, marks, left),
        _ => list(all, marks, name),
    }
}

// ---- into memory

// Whether every list has room and no word of it is too large.
pub fn may_be_loaded(all: &[u64], marks: &Marks) -> bool {
    fits(list(all, marks, List::X), 5, u32::MAX as u64)
        && fits(list(all, marks, List::W), 3, u64::MAX)
        && fits(list(all, marks, List::T), VALUES, u64::MAX)
        && fits(list(all, marks, List::P), BYTES, u8::MAX as u64)
        && fits(list(all, marks, List::Q), BYTES, u8::MAX as u64)
        && fits(list(all, marks, List::V), VALUES, u32::MAX as u64)
        && fits(list(all, marks, List::R), ROW, u64::MAX)
        && fits(list(all, marks, List::U), TABLE, u64::MAX)
        && fits(list(all, marks, List::S), ROW, u64::MAX)
}

fn fits(words: &[u64], most: usize, greatest: u64) -> bool {
    words.len() <= most && words.iter().all(|word| *word <= greatest)
}

// The word of that place, 0 where the list ends before it.
pub fn word(all: &[u64], marks: &Marks, name: List, i: usize) -> u64 {
    list(all, marks, name).get(i).copied().unwrap_or(0)
}

// The words of a list into memory, each as what it stands for there. Answers how many went in: all, where
// they may be loaded.
pub fn load<T: Copy, F: Fn(u64) -> T>(from: &[u64], to: &mut [T], of: F) -> usize
    requires { F.IsAlwaysCallable of }
    ensures { Counts result to.new }
{
    let n = from.len().min(to.len());
    for (place, word) in to[..n].iter_mut().zip(from) {
        *place = of(*word);
    }
    n
}

pub fn low_byte(word: u64) -> u8 {
    (word % 256) as u8
}

// ---- out of memory

// Whether memory holds just what must be left of a list.
pub fn is_left<T: Copy + Into<u64>>(held: &[T], all: &[u64], marks: &Marks, name: List) -> bool {
    let words = left(all, marks, name);
    held.len() == words.len() && held.iter().zip(words).all(|(h, word)| (*h).into() == *word)
}

// What a call answers: its number with the value and the place, or what it gives where it is never refused.
#[derive(Clone, Copy, PartialEq)]
pub struct Told {
    pub number: u64,
    pub value: u64,
    pub place: u64,
}

impl Told {
    // What a call gives that is never refused.
    pub fn given(number: u64) -> Told {
        Told {
            number,
            value: 0,
            place: 0,
        }
    }
}

impl From<Fault> for Told {
    fn from(fault: Fault) -> Told {
        Told {
            number: fault.number as u64,
            value: fault.value as u64,
            place: fault.place as u64,
        }
    }
}

// Whether it is what must be answered, one word or three.
pub fn is_answer(told: Told, all: &[u64], marks: &Marks) -> bool {
    match list(all, marks, List::Answer) {
        [number] => told == Told::given(*number),
        [number, value, place] => {
            told == Told {
                number: *number,
                value: *value,
                place: *place,
            }
        }
        _ => false,
    }
}
