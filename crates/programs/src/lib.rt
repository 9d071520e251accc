// What each program does, from the texts that it reads to the bytes that it writes.
#![tactic(auto)]

pub mod files;
pub mod quote;
