// 01, "Net tables": the three tables of a net, written where they belong once all is judged.
#![tactic(auto)]

pub mod kinds;
pub mod rows;
