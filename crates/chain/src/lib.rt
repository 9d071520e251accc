// A chain of relays and the streams that run over it.
#![tactic(auto)]

pub mod chain;
pub mod covers;
pub mod curve;
pub mod draft;
pub mod line;
pub mod parse;
pub mod read;
pub mod row;
pub mod same;
pub mod shape;
pub mod stream;
pub mod stretch;
pub mod table;
