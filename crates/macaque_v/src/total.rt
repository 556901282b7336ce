// The sum of some values, held while they are added from the left.
ghost use Rattle.std.specs.Prelude.{◌≡◌};
ghost use Rattle.std.specs.Float.{binary32};
ghost use Rattle.std.specs.Float.Ieee.{add, of_bits};
ghost use Rattle.macaque_v.specs.Inner.Total.{added_to};

// What the next value is added to: the sum before it; but -0 where it is stored in full and so begins the sum. -0 and a
// value give the value, so that no loop has to ask which is the first.
pub fn begun(raw: bool, sum: f32) -> f32
    ensures { result ≡ added_to raw sum }
{
    if raw { -0.0 } else { sum }
}

// One value more.
pub fn joined(sum: f32, bits: u32) -> f32
    ensures { result ≡ add binary32 sum (of_bits binary32 bits) }
{
    sum + numbers::value_of_f32(bits)
}
