// A line of the list, read byte by byte into words:
//
//    CALL x .. w .. t .. p .. q .. v .. r .. u .. s .. : NUMBER VALUE PLACE p .. q .. v .. r .. u ..
//
// hexadecimal words between single letters that name the lists (calls.rt says what each holds), first
// the call's number and what it is handed, then what it must answer and leave. A value and a place that
// are both 0 are left out. A list that is not named is empty, or, behind the colon, must be left as it was. `COUNT*WORD` stands for so many such words. A
// line that begins with `#` is for people, and one that begins with `@` is the title of those behind it.

// How many words a line may have: lists of 65,537 timestamps and values, and more.
pub const WORDS: usize = 200_000;

// The lists in their order on a line: the number of the call and what it is handed, what it must answer,
// and behind that what it must leave of the lists that it is lent.
#[derive(Clone, Copy)]
pub enum List {
    Call,
    X,
    W,
    T,
    P,
    Q,
    V,
    R,
    U,
    S,
    Answer,
    LeftP,
    LeftQ,
    LeftV,
    LeftR,
    LeftU,
}

pub const LISTS: usize = 16;

impl List {
    // The list behind the colon that says what must be left of this one.
    pub fn left(self) -> Option<List> {
        match self {
            List::P => Some(List::LeftP),
            List::Q => Some(List::LeftQ),
            List::V => Some(List::LeftV),
            List::R => Some(List::LeftR),
            List::U => Some(List::LeftU),
            _ => None,
        }
    }

    fn is_behind(self, other: List) -> bool {
        (other as usize) < (self as usize)
    }
}

// Where the words of a list stand among those of its line.
#[derive(Clone, Copy)]
pub struct Span {
    pub from: usize,
    pub to: usize,
}

// Of each list its words; none of a list that is not named.
pub type Marks = [Option<Span>; LISTS];

pub fn no_marks() -> Marks {
    [None; LISTS]
}

// What a line is, as far as it is read.
#[derive(Clone, Copy)]
pub enum Kind {
    Record,
    // Neither a record nor text.
    Unsound,
    Comment,
    Title,
}

// What is known of a line so far.
#[derive(Clone, Copy)]
pub struct TextLine {
    pub kind: Kind,
    // The list that is being filled, where its words begin, and how many words all have.
    list: List,
    from: usize,
    used: usize,
    // The word that is being read, its digits so far, and the count before it.
    word: u64,
    digits: u64,
    count: Option<usize>,
}

impl TextLine {
    pub fn start() -> TextLine {
        TextLine {
            kind: Kind::Record,
            list: List::Call,
            from: 0,
            used: 0,
            word: 0,
            digits: 0,
            count: None,
        }
    }

    // The line with one more byte.
    pub fn with(self, byte: u8, words: &mut [u64; WORDS], marks: &mut Marks) -> TextLine {
        if self.is_text() {
            return self;
        }
        match byte {
            b'0'..=b'9' => self.with_digit((byte - b'0') as u64),
            b'a'..=b'f' => self.with_digit((byte - b'a') as u64 + 10),
            b' ' => self.ended(words, marks),
            b'*' => self.counted(),
            b'#' => self.begun(Kind::Comment),
            b'@' => self.begun(Kind::Title),
            _ => self.opened(byte, marks),
        }
    }

    fn with_digit(mut self, digit: u64) -> TextLine {
        if 16 <= self.digits {
            return self.unsound();
        }
        self.word = self.word << 4 | digit;
        self.digits += 1;
        self
    }

    // The word so far is a count.
    fn counted(mut self) -> TextLine {
        if self.count.is_some() || self.word == 0 {
            return self.unsound();
        }
        self.count = Some(self.word as usize);
        self.word = 0;
        self.digits = 0;
        self
    }

    // A list is named: one that comes behind the last.
    fn opened(mut self, name: u8, marks: &mut Marks) -> TextLine {
        match list_of(name, List::Answer.is_behind(self.list)) {
            Some(list) if list.is_behind(self.list) && self.used != 0 && !self.is_in_word() => {
                self.list = list;
                self.from = self.used;
                marks[list as usize] = Some(Span {
                    from: self.used,
                    to: self.used,
                });
                self
            }
            _ => self.unsound(),
        }
    }

    // The word that was read, as often as its count says, behind the others.
    pub fn ended(mut self, words: &mut [u64; WORDS], marks: &mut Marks) -> TextLine {
        if !self.is_in_word() {
            return self;
        }
        let to = self.used.saturating_add(self.count.unwrap_or(1));
        match words.get_mut(self.used..to) {
            Some(places) if self.digits != 0 => places.fill(self.word),
            _ => return self.unsound(),
        }
        marks[self.list as usize] = Some(Span {
            from: self.from,
            to,
        });
        self.used = to;
        self.word = 0;
        self.digits = 0;
        self.count = None;
        self
    }

    // Whether nothing was read yet.
    pub fn is_fresh(self) -> bool {
        matches!(self.kind, Kind::Record) && self.used == 0 && !self.is_in_word()
    }

    // Whether it is no record.
    pub fn is_text(self) -> bool {
        matches!(self.kind, Kind::Comment | Kind::Title)
    }

    fn is_in_word(self) -> bool {
        self.digits != 0 || self.count.is_some()
    }

    // A line of text, where nothing was read yet.
    fn begun(mut self, kind: Kind) -> TextLine {
        if !self.is_fresh() {
            return self.unsound();
        }
        self.kind = kind;
        self
    }

    fn unsound(mut self) -> TextLine {
        self.kind = Kind::Unsound;
        self
    }
}

// The list that a byte names, in front of the colon or behind it.
fn list_of(byte: u8, is_front: bool) -> Option<List> {
    match (byte, is_front) {
        (b'x', true) => Some(List::X),
        (b'w', true) => Some(List::W),
        (b't', true) => Some(List::T),
        (b'p', true) => Some(List::P),
        (b'q', true) => Some(List::Q),
        (b'v', true) => Some(List::V),
        (b'r', true) => Some(List::R),
        (b'u', true) => Some(List::U),
        (b's', true) => Some(List::S),
        (b':', true) => Some(List::Answer),
        (b'p', false) => Some(List::LeftP),
        (b'q', false) => Some(List::LeftQ),
        (b'v', false) => Some(List::LeftV),
        (b'r', false) => Some(List::LeftR),
        (b'u', false) => Some(List::LeftU),
        _ => None,
    }
}
