// Compares two uploads, the left one in standard input and the right one in descriptor 3, on standard output: document 02, "Compare
// two uploads".
#![tactic(auto)]

use comparing::{Pair, RefusedFile, StepLine};
use listing::line;

const STDIN_FILENO: i32 = 0;

const STDOUT_FILENO: i32 = 1;

const RIGHT_FILENO: i32 = 3;

// A step for each value of the longest stream, and the last one.
const MOST_STEPS: usize = 65537;

fn main() {
    // One byte more than a file may have, so that too many are noticed. (Arrays of fixed size, here and below: the project has no heap.)
    let mut left = [0u8; 24586];
    let n = io::read_full(STDIN_FILENO, &mut left);
    let mut right = [0u8; 24586];
    let m = io::read_full(RIGHT_FILENO, &mut right);
    compare(&left[..n], &right[..m]);
}

fn compare(left: &[u8], right: &[u8]) {
    match comparing::judge(left, right) {
        Err(file) => refuse(file),
        Ok(at) => steps(left, right, at),
    }
}

fn refuse(file: RefusedFile) {
    let mut line = [0u8; 80];
    let n = comparing::refusal(file.side, file.cause, &mut line);
    io::write_all(STDOUT_FILENO, line::front(&line, n));
}

// The line of each index, and the last one. Both files were judged, so no step is refused.
fn steps(left: &[u8], right: &[u8], begun: Pair) {
    let mut line = [0u8; 80];
    let mut at = begun;
    for _ in 0..MOST_STEPS {
        match comparing::step(left, right, at, &mut line) {
            Err(_) => return,
            Ok(StepLine::Last { length }) => {
                io::write_all(STDOUT_FILENO, line::front(&line, length));
                return;
            }
            Ok(StepLine::On { length, next }) => {
                io::write_all(STDOUT_FILENO, line::front(&line, length));
                at = next;
            }
        }
    }
}
