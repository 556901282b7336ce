// The C face of PMC-Mean and Swing, as a static library: each call is that of crates/exports_fit, with its clauses.

#![tactic(auto)]

pub mod of_pmc_mean;
pub mod of_swing;
