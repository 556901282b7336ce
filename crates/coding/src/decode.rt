// One value from the bits ahead of a place: raw, or by its code.
ghost use Rattle.std.specs.Prelude.{◌≡◌, true, false, not, ◌+◌, ◌-◌, ◌*◌, ◌/◌, ◌^◌, ◌<◌, ◌≤◌, length};
ghost use Rattle.bits.specs.Bits.{field, field_at};
ghost use Rattle.stream.specs.Format.{macaque, window_in, unset};
ghost use Rattle.stream.specs.Read.{read_one};
ghost use Rattle.coding.specs.Inner.Ahead.{WindowSound, bits_in, IsPart, IsAhead, IsWord, AtTop, says_decoded};

// ---- the bits ahead

// The first `left` bits of `word` are those from a place on: 45 of them, or as many as there are.
#[derive(Clone, Copy)]
pub struct Ahead {
    pub word: u64,
    pub left: usize,
    pub ghost few: { left ≤ 45 },
}

// No value takes more than 45 bits; eight bytes have at least 57.
pub fn look(bytes: &[u8], place: usize) -> Ahead
    requires { place ≤ 8 * length bytes.now }
    ensures { IsAhead bytes.now place result.word result.left }
{
    if bytes.len() - place / 8 < 8 {
        return look_at_end(bytes, place);
    }
    Ahead {
        word: bits::word_at(bytes, place),
        left: 45,
    }
}

// The same where the stream has fewer than eight bytes from the place on.
pub fn look_at_end(bytes: &[u8], place: usize) -> Ahead
    requires { (place ≤ 8 * length bytes.now) × (length bytes.now < place / 8 + 8) }
    ensures { IsAhead bytes.now place result.word result.left }
{
    let rest = 8 * (bytes.len() - place / 8) - place % 8;
    if rest == 0 {
        return Ahead { word: 0, left: 0 };
    }
    if 45 < rest {
        return Ahead {
            word: bits::get(bytes, place, 45) << 19,
            left: 45,
        };
    }
    Ahead {
        word: bits::get(bytes, place, rest) << (64 - rest),
        left: rest,
    }
}

// The `width` bits of `word` behind its first `skip`.
fn part(word: u64, skip: usize, width: usize) -> u32
    requires { (0 < width) × (width ≤ 32) × (skip + width ≤ 45) }
    ensures { IsPart word skip width result }
{
    ((word << skip) >> (64 - width)) as u32
}

// ---- a word at a time

// The word at a place where eight bytes stand from there on; else one that begins with `11`, as no value in the last window and no repeat does.
pub fn word_ahead(bytes: &[u8], place: usize) -> u64
    requires { place ≤ 8 * length bytes.now }
    ensures { IsWord bytes.now place result }
{
    if bytes.len() - place / 8 < 8 {
        return 0xC000_0000_0000_0000;
    }
    bits::word_at(bytes, place)
}

// Of a word that begins with `0`: the bits in the window behind it, over `trail` zeros.
pub fn in_place(word: u64, lead: u32, trail: u32) -> u32
    requires { (word < 2 ^ 63) × (lead + trail < 32) }
    ensures { result ≡ field_at 1 (32 - lead - trail) (field 64 word) * 2 ^ trail }
{
    let x = (word >> (31 + lead)) as u32;
    x - (x & ((1u32 << trail) - 1))
}

// How many repeats a word begins with, 28 at most: each is `10`.
pub fn at_top(word: u64) -> usize
    ensures { AtTop word result }
{
    let k = ((word ^ 0xAAAA_AAAA_AAAA_AAAA).leading_zeros() / 2) as usize;
    k.min(28)
}

// ---- one value

// Why there is no value: the stream ends inside it, it keeps a window and none is set, or its own window is not allowed.
#[derive(Clone, Copy)]
pub enum Stop {
    EndsEarly,
    NoWindow,
    WindowNotAllowed,
}

// The value, the window after it and how many bits it takes.
#[derive(Clone, Copy)]
pub struct Got {
    pub value: u32,
    pub lead: u32,
    pub trail: u32,
    pub used: usize,
}

impl Ahead {
    // The value that the bits begin with, after the last value and its window, where `set` says whether it has one.
    pub fn decode(self, raw: bool, set: bool, lead: u32, trail: u32, last: u32) -> Result<Got, Stop>
        requires { (unset (window_in lead trail) ≡ not set) × WindowSound lead trail }
        ensures { says_decoded result ≡ read_one macaque raw (window_in lead trail) last (bits_in self.word self.left) }
    {
        if raw {
            return self.in_full(lead, trail, last);
        }
        if self.left < 1 {
            return Err(Stop::EndsEarly);
        }
        if part(self.word, 0, 1) == 0 {
            return self.in_window(set, lead, trail, last);
        }
        if self.left < 2 {
            return Err(Stop::EndsEarly);
        }
        if part(self.word, 1, 1) == 0 {
            return Ok(Got {
                value: last,
                lead,
                trail,
                used: 2,
            });
        }
        self.with_window(lead, trail, last)
    }

    // A first value: its 32 bits.
    fn in_full(self, lead: u32, trail: u32, last: u32) -> Result<Got, Stop>
        ensures { says_decoded result ≡ read_one macaque true (window_in lead trail) last (bits_in self.word self.left) }
    {
        if self.left < 32 {
            return Err(Stop::EndsEarly);
        }
        Ok(Got {
            value: part(self.word, 0, 32),
            lead,
            trail,
            used: 32,
        })
    }

    // `0`, then the bits in the window.
    fn in_window(self, set: bool, lead: u32, trail: u32, last: u32) -> Result<Got, Stop>
        requires { (1 ≤ self.left) × (unset (window_in lead trail) ≡ not set) × WindowSound lead trail × (field_at 0 1 (field 64 self.word) ≡ 0) }
        ensures { says_decoded result ≡ read_one macaque false (window_in lead trail) last (bits_in self.word self.left) }
    {
        if !set {
            return Err(Stop::NoWindow);
        }
        let width = (32 - lead - trail) as usize;
        if self.left < 1 + width {
            return Err(Stop::EndsEarly);
        }
        Ok(Got {
            value: (part(self.word, 1, width) << trail) ^ last,
            lead,
            trail,
            used: 1 + width,
        })
    }

    // `11`, a header that sets a new window, then the bits in it.
    fn with_window(self, lead: u32, trail: u32, last: u32) -> Result<Got, Stop>
        requires { (2 ≤ self.left) × ¬ (field_at 0 1 (field 64 self.word) ≡ 0) × ¬ (field_at 1 1 (field 64 self.word) ≡ 0) }
        ensures { says_decoded result ≡ read_one macaque false (window_in lead trail) last (bits_in self.word self.left) }
    {
        if self.left < 13 {
            return Err(Stop::EndsEarly);
        }
        let zeros = part(self.word, 2, 5);
        let meaningful = part(self.word, 7, 6);
        if meaningful == 0 {
            return Err(Stop::WindowNotAllowed);
        }
        if 32 < zeros + meaningful {
            return Err(Stop::WindowNotAllowed);
        }
        let width = meaningful as usize;
        if self.left < 13 + width {
            return Err(Stop::EndsEarly);
        }
        let ends = 32 - zeros - meaningful;
        Ok(Got {
            value: (part(self.word, 13, width) << ends) ^ last,
            lead: zeros,
            trail: ends,
            used: 13 + width,
        })
    }
}
