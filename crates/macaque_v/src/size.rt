// How large a stream can get: the most bits that so many values take, by any bound.
ghost use Rattle.std.specs.Prelude.{◌≡◌, ◌*◌, ◌≤◌};
ghost use Rattle.models.specs.Limits.{most_values};
ghost use Rattle.stream.specs.Format.{macaque};
ghost use Rattle.stream.specs.Size.{most_coded, most_bits};
ghost use Rattle.models.specs.Calls.{said_by};
ghost use Rattle.macaque_v.specs.Size.{most_bits_answer, most_bytes_answer};

use crate::{MacaqueV, Opening, read};
use models::Refusal;

impl MacaqueV {
    // The most bits that `count` values take in a stream that opens so. Some lossless list takes as many.
    pub fn most_bits(count: usize, opening: Opening) -> Result<usize, Refusal>
        ensures { said_by result ≡ most_bits_answer count opening }
    {
        if MacaqueV::MOST_VALUES < count {
            return Err(Refusal::OverLimit);
        }
        Ok(most_of(read::is_first(opening), count))
    }

    // The bytes that hold them: a fresh writer that is lent so many refuses no such values for want of room.
    pub fn most_bytes(count: usize, opening: Opening) -> Result<usize, Refusal>
        ensures { said_by result ≡ most_bytes_answer count opening }
    {
        let bits = MacaqueV::most_bits(count, opening)?;
        Ok(bits.div_ceil(8))
    }
}

// The most bits of n values, the first of them stored in full or not.
pub fn most_of(raw: bool, n: usize) -> usize
    requires { n ≤ most_values }
    ensures { (result ≡ most_bits macaque raw n) × (result ≤ 45 * n) }
{
    if n == 0 {
        return 0;
    }
    if raw {
        return 32 + most_coded(n - 1);
    }
    most_coded(n)
}

// Of n coded ones: 44 bits each, and one more, since a code of 45 sets a window that no later code replaces.
fn most_coded(n: usize) -> usize
    requires { n ≤ most_values }
    ensures { (result ≡ most_coded macaque n) × (result ≤ 45 * n) }
{
    if n == 0 {
        return 0;
    }
    n * 44 + 1
}
