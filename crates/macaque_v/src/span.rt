// The least and the greatest of some values, held as numbers while many are taken in: the greatest with its sign turned,
// so that both are found by the same test. Where no number is there yet they are infinite, and no number is above that.
ghost use Rattle.std.specs.Prelude.{◌≡◌};
ghost use Rattle.macaque_v.specs.Inner.Span.{or_infinite, lesser_of, is_number, span_from, span_with, said_bits, least_in, greatest_in};

#[derive(Clone, Copy)]
pub struct Span {
    pub low: f32,
    pub turned: f32,
    // A number was taken in. (Both numbers stand there either way, so that a loop asks nothing.)
    pub some: bool,
}

// Where taking in begins, behind the patterns min and max.
pub fn begun(min: u32, max: u32) -> Span
    ensures { result ≡ span_from min max }
{
    Span {
        low: or_infinite(numbers::value_of_f32(min)),
        turned: or_infinite(-numbers::value_of_f32(max)),
        some: false,
    }
}

// One value more.
pub fn joined(span: Span, bits: u32) -> Span
    ensures { result ≡ span_with span bits }
{
    let number = numbers::value_of_f32(bits);
    Span {
        low: lesser(span.low, number),
        turned: lesser(span.turned, -number),
        some: span.some | is_number(bits),
    }
}

// The patterns of the two, where taking in began behind min or max, and the value `last` came last.
pub fn least(span: Span, min: u32, last: u32) -> u32
    ensures { result ≡ least_in span min last }
{
    said(span.low, span.some, min, last)
}

pub fn greatest(span: Span, max: u32, last: u32) -> u32
    ensures { result ≡ greatest_in span max last }
{
    said(-span.turned, span.some, max, last)
}

// The held number's pattern; but where no number came, and none was there before, the last value's.
fn said(x: f32, some: bool, start: u32, last: u32) -> u32
    ensures { result ≡ said_bits x some start last }
{
    if some | is_number(start) {
        return numbers::bits_of_f32(x);
    }
    last
}

fn or_infinite(x: f32) -> f32
    ensures { result ≡ or_infinite x }
{
    if x != x { 1.0 / 0.0 } else { x }
}

fn lesser(x: f32, y: f32) -> f32
    ensures { result ≡ lesser_of x y }
{
    if y < x { y } else { x }
}

fn is_number(bits: u32) -> bool
    ensures { result ≡ is_number bits }
{
    (bits & 0x7fff_ffff) <= 0x7f80_0000
}
