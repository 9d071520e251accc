// Texts in lent memory: lines that end in byte 10, of words that byte 32 parts. Reads them, shows their words, and writes texts of
// the same form; nothing here takes memory of its own.
#![tactic(auto)]

pub mod cut;
pub mod fault;
pub mod line;
pub mod lines;
pub mod page;
pub mod show;
pub mod word;
pub mod write;
