// Judges a paper's lines against any sheet: their weighted rows have to add up to the goal.
#![tactic(auto)]

pub mod check;
pub mod entry;
pub mod fault;
pub mod judge;
pub mod line;
pub mod lines;
pub mod stated;
pub mod sums;
pub mod weigh;
