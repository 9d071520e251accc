// The linear programs of a chain, row by row.
#![tactic(auto)]

pub mod backlog;
pub mod delay;
pub mod kept;
pub mod part;
pub mod row;
pub mod sheet;
