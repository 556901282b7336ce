// Replays the list of the oracle's answers in standard input: makes each call that it holds, and compares
// what the call answers and all memory that it was lent with what the oracle answered and left. Standard
// output has a line for each title of the list: how many answers were replayed behind it and how many of them
// differ, and before that the number of each line that differs or cannot be read.

#![tactic(auto)]

use at::At;
use replaying::line;
use replaying::line::{Marks, WORDS};

mod at;
mod calls;
mod record;

const STDIN_FILENO: i32 = 0;

// A proved loop has to end, and nothing says that a list does: many more parts than one has.
const MOST_PARTS: u32 = 1_000_000;

fn main() {
    let mut words = [0u64; WORDS];
    let mut marks = line::no_marks();
    let mut at = At::start();
    for _ in 0..MOST_PARTS {
        if at.is_end {
            break;
        }
        at = read(at, &mut words, &mut marks);
    }
    at.finished();
}

// The next part of the list.
fn read(mut at: At, words: &mut [u64; WORDS], marks: &mut Marks) -> At {
    let mut part = io::large_buffer();
    let n = io::read_full(STDIN_FILENO, &mut part);
    if n == 0 {
        at.is_end = true;
        return at;
    }
    replay(&part[..n], at, words, marks)
}

fn replay(part: &[u8], from: At, words: &mut [u64; WORDS], marks: &mut Marks) -> At {
    let mut at = from;
    for byte in part {
        at = at.with(*byte, words, marks);
    }
    at
}
