// A job's refusals and the verdict.
#![tactic(auto)]

mod defects;
pub mod refusals;
