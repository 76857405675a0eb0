// The influence line: loaded pieces, patch bytes, what each sense seeks, line effects of the element kinds.
#![tactic(auto)]

pub mod kinds;
pub mod pieces;
pub mod sought;
