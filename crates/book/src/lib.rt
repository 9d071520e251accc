// The book: one chain, the claims that stand for it, and the calls on them.
#![tactic(auto)]

pub mod aim;
pub mod book;
pub mod fault;
pub mod goal;
pub mod paper;
pub mod quotes;
pub mod rows;
pub mod target;
pub mod verdict;
pub mod write;

pub use text::show::show;
