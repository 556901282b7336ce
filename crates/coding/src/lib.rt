// One value of a coded stream: what is kept of it, its bits, and one value from the bits ahead of a place.

#![tactic(auto)]

pub mod code;
pub mod decode;
pub mod keep;
