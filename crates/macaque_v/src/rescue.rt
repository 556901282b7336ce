// Rescue: going on from what arrived of a stream that was cut at any byte.
ghost use Rattle.std.specs.Prelude.{◌≡◌, ◌≤◌};
ghost use Rattle.models.specs.Answers.{verdict};
ghost use Rattle.models.specs.Calls.{said_by};
ghost use Rattle.models.specs.Limits.{most_values};
ghost use Rattle.macaque_v.specs.Read.{rescue_causes, rescue_answer, rescue_memory};
ghost use Rattle.macaque_v.specs.Inner.Read.{rescuing, OpensAs};

use crate::read_run::{Aim, Cursor, Source, Tally};
use crate::{MacaqueV, Opening, read};
use models::{ErrorBound, Refusal};

impl MacaqueV {
    // The writer behind the values that arrived whole in the buffer's first `used` bytes, but no more than `limit`, which is how many the upload was
    // to have; its length says how many they are. The bits behind them in the byte that they end in are zeroed. What else stands behind them is no refusal.
    pub fn rescue(
        buffer: &mut [u8],
        used: usize,
        limit: usize,
        opening: Opening,
        error_bound: ErrorBound,
    ) -> Result<MacaqueV, Refusal>
        ensures answer { said_by result ≡ rescue_answer buffer.old used limit opening error_bound }
        ensures bytes { buffer.new ≡ rescue_memory buffer.old used limit opening error_bound }
    {
        judge_rescue(error_bound, buffer.len(), used, limit)?;
        let found = arrived(&buffer[..used], limit, opening);
        read::open_behind(buffer, found, opening, error_bound)
    }
}

// The causes of refusal: those of reopening at the limit.
pub fn judge_rescue(
    error_bound: ErrorBound,
    room: usize,
    used: usize,
    limit: usize,
) -> Result<(), Refusal>
    ensures { said_by result ≡ verdict (rescue_causes error_bound room used limit) }
{
    read::judge_reopen(error_bound, room, used, limit, limit)
}

// The state after the values that arrived whole. Where the bytes end inside a value, the refusal says how many stand before it: these are
// gone through once more.
pub fn arrived(bytes: &[u8], limit: usize, opening: Opening) -> Result<(Cursor, Tally), Refusal>
    requires { limit ≤ most_values }
    ensures { OpensAs (rescuing bytes.now limit opening) bytes.now result }
{
    let source = Source::open(bytes, opening);
    match source.go_through(limit, Aim::All) {
        Ok(found) => Ok(found),
        Err(r) => match r {
            Refusal::EndsEarly { value, .. } => { source.go_through(value as usize, Aim::All) }
            _ => Err(r),
        },
    }
}
