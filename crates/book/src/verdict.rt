// What judging gives for a paper that passed.
use crate::target::Target;

pub mod read;

// Only judging on a book makes one, and entering uses it up: it can be neither made up nor copied.
#[derive(Drop)]
pub struct Verdict {
    pub(crate) target: Target,
    pub(crate) claim: u32,
    pub(crate) edits: u32,
}
