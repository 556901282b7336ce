// What the program `replay` reads: the lines of a list of answers, and their lists as lent memory.

#![tactic(auto)]

pub mod line;
pub mod lists;
