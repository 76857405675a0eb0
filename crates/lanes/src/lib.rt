// Lanes: the best element of each, and the traffic values with their placements.
#![tactic(auto)]

mod entries;
pub mod traffic;
