// The C face of PMC-Mean and Swing. A state crosses as a row of words (specs/Row.antt), which ends in a
// word that a step sets: 1 where the value fitted, 0 where it did not. A row that stands for no state
// stands for one that the call behind refuses; of a row that is too short nothing can be read: 4.

#![tactic(auto)]

pub mod of_pmc_mean;
pub mod of_swing;
pub mod rows;
