// How far the list is replayed.

use crate::record;
use crate::record::Verdict;
use replaying::line;
use replaying::line::{Kind, Marks, TextLine, WORDS};

const STDOUT_FILENO: i32 = 1;

// How many answers were replayed, and how many of them differ.
#[derive(Clone, Copy)]
struct Counts {
    answers: u64,
    different: u64,
}

const NONE: Counts = Counts {
    answers: 0,
    different: 0,
};

impl Counts {
    fn with(self, verdict: Verdict) -> Counts {
        match verdict {
            Verdict::Unread => self,
            Verdict::Same => Counts {
                answers: self.answers.wrapping_add(1),
                different: self.different,
            },
            Verdict::Differs => Counts {
                answers: self.answers.wrapping_add(1),
                different: self.different.wrapping_add(1),
            },
        }
    }
}

#[derive(Clone, Copy)]
pub struct At {
    // The number of the line that is read, and what is read of it.
    number: u64,
    line: TextLine,
    // The answers behind the last title, where there was one; those of all titles.
    titled: Option<Counts>,
    all: Counts,
    // Nothing is left to read.
    pub is_end: bool,
}

impl At {
    pub fn start() -> At {
        At {
            number: 1,
            line: TextLine::start(),
            titled: None,
            all: NONE,
            is_end: false,
        }
    }

    // One more byte of the list.
    pub fn with(mut self, byte: u8, words: &mut [u64; WORDS], marks: &mut Marks) -> At {
        if byte == b'\n' {
            return self.with_line(words, marks);
        }
        if let Kind::Title = self.line.kind {
            io::write_all(STDOUT_FILENO, &[byte]);
            return self;
        }
        self.line = self.line.with(byte, words, marks);
        match self.line.kind {
            Kind::Title => self.titled(),
            _ => self,
        }
    }

    // A title begins: what stands behind the last one is told.
    fn titled(mut self) -> At {
        self.print_titled();
        self.titled = Some(NONE);
        self
    }

    // The line ends.
    fn with_line(mut self, words: &mut [u64; WORDS], marks: &mut Marks) -> At {
        let line = self.line.ended(words, marks);
        if !line.is_text() {
            self = self.compared(line, words, marks);
        }
        *marks = line::no_marks();
        self.line = TextLine::start();
        self.number = self.number.wrapping_add(1);
        self
    }

    // The record of a whole line.
    fn compared(mut self, line: TextLine, words: &[u64; WORDS], marks: &Marks) -> At {
        let verdict = match (line.kind, self.titled) {
            (Kind::Record, Some(_)) => record::replayed(words, marks),
            _ => Verdict::Unread,
        };
        match verdict {
            Verdict::Same => {}
            Verdict::Differs => tell(self.number, b" differs]"),
            Verdict::Unread => tell(self.number, b" cannot be read]"),
        }
        self.titled = self.titled.map(|counts| counts.with(verdict));
        self.all = self.all.with(verdict);
        self
    }

    // The list has ended, at the end of a line.
    pub fn finished(self) {
        if !(self.is_end && self.line.is_fresh()) {
            tell(self.number, b" is cut off]");
        }
        self.print_titled();
        io::write_all(STDOUT_FILENO, b"total");
        print_counts(self.all);
    }

    fn print_titled(self) {
        if let Some(counts) = self.titled {
            print_counts(counts);
        }
    }
}

// What is wrong with a line of the list.
fn tell(number: u64, what: &[u8]) {
    io::write_all(STDOUT_FILENO, b" [line ");
    io::print_decimal(STDOUT_FILENO, number);
    io::write_all(STDOUT_FILENO, what);
}

fn print_counts(counts: Counts) {
    io::write_all(STDOUT_FILENO, b" ");
    io::print_decimal(STDOUT_FILENO, counts.answers);
    io::write_all(STDOUT_FILENO, b" answers, ");
    io::print_decimal(STDOUT_FILENO, counts.different);
    io::write_all(STDOUT_FILENO, b" differ\n");
}
