// MacaqueV: a stream of values, each coded by how it differs from the last one that was kept.

#![tactic(auto)]

pub mod noting;
pub mod read;
pub mod read_run;
pub mod rescue;
pub mod size;
pub mod span;
pub mod total;
pub mod write;

use models::ErrorBound;

// How a stream opens: its first value is stored in full, or it goes on from a given value. (An Option would not say what None is.)
#[derive(Clone, Copy)]
pub enum Opening {
    First,
    On(u32),
}

// What the writer knows of the stream behind it.
#[derive(Clone, Copy)]
pub struct MacaqueV {
    pub error_bound: ErrorBound,
    // The least and the greatest value kept.
    pub min_value: u32,
    pub max_value: u32,
    pub last_value: u32,
    // The window that the last new one set.
    pub last_leading_zero_bits: u32,
    pub last_trailing_zero_bits: u32,
    // Whether the first value is stored in full. (A truth of its own: `last_value` is there either way.)
    pub with_first: bool,
    // How many bits are written, and how many values.
    pub place: usize,
    pub length: usize,
    // The sum of the values kept, from the left.
    pub sum: f32,
}

impl MacaqueV {
    // The most values of a stream, and of a segment's residuals.
    pub const MOST_VALUES: usize = models::MOST_VALUES;

    pub const MOST_RESIDUALS: usize = 255;

    // The window before any is set.
    pub const OPENING_LEADING: u32 = 255;

    pub const OPENING_TRAILING: u32 = 0;
}
