// Load combinations: a row's best value, and the row that governs a limit state.
#![tactic(auto)]

pub mod state;
pub mod tables;
