#![tactic(auto)]

pub mod counts;
