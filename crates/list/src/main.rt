// Lists the stream in standard input on standard output: document 01, "The listing".
#![tactic(auto)]

use listing::line;
use models::Refusal;

const STDIN_FILENO: i32 = 0;

const STDOUT_FILENO: i32 = 1;

fn main() {
    // One byte more than an input may have, so that too many are noticed. (Arrays of fixed size, here and below: the project has no heap.)
    let mut input = [0u8; 32769];
    let n = io::read_full(STDIN_FILENO, &mut input);
    list(&input[..n]);
}

fn list(input: &[u8]) {
    match listing::judge(input) {
        Err(cause) => refuse(cause),
        Ok(count) => {
            if let Some(stream) = input.get(4..) {
                io::write_all(STDOUT_FILENO, &listing::header());
                rows(stream, count);
            }
        }
    }
}

fn refuse(cause: Refusal) {
    let mut line = [0u8; 80];
    let n = listing::refusal(cause, &mut line);
    io::write_all(STDOUT_FILENO, line::front(&line, n));
}

// A row for each value, and the total. The stream was judged, so no row is refused.
fn rows(stream: &[u8], count: usize) {
    let mut line = [0u8; 80];
    let mut at = listing::start();
    for _ in 0..count {
        let Ok(row) = listing::row(stream, at, &mut line) else {
            return;
        };
        io::write_all(STDOUT_FILENO, line::front(&line, row.length));
        at = row.next;
    }
    let n = listing::total(at.place, &mut line);
    io::write_all(STDOUT_FILENO, line::front(&line, n));
}
