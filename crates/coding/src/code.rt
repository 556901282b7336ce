// The bits of one value, by the exclusive or with the last kept one.
ghost use Rattle.std.specs.Prelude.{◌≡◌, ◌+◌, ◌*◌, ◌^◌, ◌<◌, ◌≤◌};
ghost use Rattle.stream.specs.Format.{window_in};
ghost use Rattle.coding.specs.Inner.Code.{Coded, CodedXor};

// The `width` lowest binary digits of `bits`, the most significant first, and the window after them. (A window stays two numbers, here and where one
// is read: the writer's state has them as fields of its own, and so have its row in C and the entries of a table.)
#[derive(Clone, Copy)]
pub struct Code {
    pub width: usize,
    pub bits: u64,
    pub lead: u32,
    pub trail: u32,
}

// The bits of the kept value `value` after the last one: raw, or a code.
pub fn coded(raw: bool, lead: u32, trail: u32, last: u32, value: u32) -> Code
    ensures { Coded raw (window_in lead trail) last value result }
{
    if raw {
        return Code {
            width: 32,
            bits: value as u64,
            lead,
            trail,
        };
    }
    by_xor(lead, trail, value ^ last)
}

// `10` for a repeat; `0` and the window's bits; or `11` with a new window.
fn by_xor(lead: u32, trail: u32, x: u32) -> Code
    ensures { CodedXor (window_in lead trail) x result }
{
    if x == 0 {
        return Code {
            width: 2,
            bits: 2,
            lead,
            trail,
        };
    }
    let zeros = x.leading_zeros();
    let ends = x.trailing_zeros();
    if (lead <= zeros) & (trail <= ends) {
        return Code {
            width: (33 - lead - trail) as usize,
            bits: (x >> trail) as u64,
            lead,
            trail,
        };
    }
    let meaningful = 32 - zeros - ends;
    Code {
        width: (13 + meaningful) as usize,
        bits: with_header(zeros, meaningful, (x >> ends) as u64),
        lead: zeros,
        trail: ends,
    }
}

// A new window's code: its header, the bits over the last `meaningful` ones, and these.
fn with_header(lead: u32, meaningful: u32, low: u64) -> u64
    requires { (lead < 32) × (meaningful ≤ 32) × (low < 2 ^ meaningful) }
    ensures { result ≡ ((3 * 2 ^ 5 + lead) * 2 ^ 6 + meaningful) * 2 ^ meaningful + low }
{
    let head = 0x1800 + (lead as u64) * 64 + (meaningful as u64);
    (head << meaningful) | low
}
