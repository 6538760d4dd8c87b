// 01, "Box construction": where the lists of an operand stand in those of the whole, and two rising lists made one.
#![tactic(auto)]

pub mod merge;
